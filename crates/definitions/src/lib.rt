// The public types: what a customer asks with, and what each call answers. No functions.
#![tactic(auto)]

// Which ranked list is meant: its degree, its top dimension T, its floor, the smallest step that its pairs may have, and whether its rows have Δ,
// the sum of resolution gaps.
#[derive(Clone, Copy)]
pub struct Selection {
    pub degree: u32,
    pub top: u32,
    pub floor: u32,
    pub gaps: bool,
}

// Where a page begins: at the start of the ranked list, or after the pair (p, q).
#[derive(Clone, Copy)]
pub enum Position {
    Start,
    After(u32, u32),
}

// A request for a page: the degree, the top dimension T, the floor, whether Δ is wanted, and the position.
#[derive(Clone, Copy)]
pub struct PageRequest {
    pub degree: u32,
    pub top: u32,
    pub floor: u32,
    pub gaps: bool,
    pub position: Position,
}

// Why a call refuses. `specs/Answers.antt` gives each its number. A quotient that is not linear comes with K, the largest degree among the partial
// quotients.
#[derive(Clone, Copy, Debug, PartialEq, Eq)]
pub enum Refusal {
    WrongDegree,
    WrongDimension,
    IllFormedPair,
    NotPrimitive,
    QuotientNotLinear(u32),
    StepNotCoprime,
    ShortSlice,
    BeyondPeriod,
    IllFormedCatalogue,
    DegreeMissing,
    StepBelowFloor,
    WrongFloor,
    NotAscending,
    FileTooLong,
}

// What the quotient test finds: K, the largest degree among the partial quotients, and the degree of the common factor.
#[derive(Clone, Copy)]
pub struct QuotientDegrees {
    pub quotient: u32,
    pub common: u32,
}

// A page: how many rows were written, and whether a further row exists.
#[derive(Clone, Copy)]
pub struct Page {
    pub rows: usize,
    pub further: bool,
}

// What a lookup tells of a degree's body: the top dimension, whether its rows have Δ, and the row count.
#[derive(Clone, Copy)]
pub struct Lookup {
    pub top: u32,
    pub gaps: bool,
    pub rows: u32,
}

// A row of a catalogue: the pair, its step, t(3) .. t(8), 0 above the body's top dimension, and Δ, 0 where the body's rows have none.
#[derive(Clone, Copy)]
pub struct Row {
    pub p: u32,
    pub q: u32,
    pub step: u32,
    pub t3: u32,
    pub t4: u32,
    pub t5: u32,
    pub t6: u32,
    pub t7: u32,
    pub t8: u32,
    pub delta: u32,
}

// A catalogue's reader: the number of the refusal, 0 where there is none; the lent body, its degree and top dimension, whether its rows have Δ, and the
// place of the next row.
#[derive(Clone, Copy)]
pub struct Reader<'a> {
    pub refusal: u32,
    pub body: &'a [u8],
    pub degree: u32,
    pub top: u32,
    pub gaps: bool,
    pub place: usize,
}

// What the listing is asked by a line: degree, top dimension, page size and floor.
#[derive(Clone, Copy)]
pub struct Asked {
    pub degree: u32,
    pub top: u32,
    pub size: u32,
    pub floor: u32,
}

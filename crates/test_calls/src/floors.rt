// Floors, and the orders of their refusals. A case is a degree, T, a floor, p, q and a first index. Printed are, in a line, these numbers and what six calls
// answer, each with the refusal first, 0 where there is none, and the K that refusal 5 carries:
//     judge REFUSAL K STEP        judging: the step
//     page REFUSAL K ROWS         the page after the pair, into a slice that holds a row of any T: how many rows were written
//     start REFUSAL K ROWS        the first page, into such a slice
//     short REFUSAL K             the page after the pair, into an empty slice: 7 where nothing comes before it
//     short start REFUSAL K       the first page, into an empty slice
//     points REFUSAL K WORDS      its words from the first index on, into a slice of four: how many were written
use crate::{cases, printing};
use definitions::{Position, Selection};
use slice_results::FenyurkaPage;
use std::io;
use std::io::{Read, Write};

// A row up to dimension 8 has so many numbers; two rows up to dimension 3 fit.
const ROW_ROOM: usize = 9;

const WORD_ROOM: usize = 4;

fn page<W: Write>(
    output: &mut W,
    word: &[u8],
    list: Selection,
    position: Position,
) -> io::Result<()> {
    let mut rows = [0u32; ROW_ROOM];
    let answer = FenyurkaPage::from(ranking::page(ranking::request(list, position), &mut rows));
    streams::print_numbers(output, word, &[answer.refusal, answer.quotient_degree])?;
    streams::print_number(output, b" ", answer.count as u64)
}

fn points<W: Write>(
    output: &mut W,
    m: u32,
    floor: u32,
    p: u32,
    q: u32,
    first: u32,
) -> io::Result<()> {
    let mut words = [0u32; WORD_ROOM];
    let count = printing::points(output, m, floor, p, q, first, &mut words)?;
    streams::print_number(output, b" ", count as u64)
}

pub(crate) fn answer<R: Read, W: Write>(reader: &mut R, output: &mut W) -> io::Result<()> {
    let mut asked = [cases::NOT_GIVEN; 6];
    cases::next(reader, &mut asked)?;
    cases::show(output, &asked)?;
    let [m, top, floor, p, q, first] = asked;
    let list = Selection {
        degree: m,
        top,
        floor,
        gaps: false,
    };
    printing::judge(output, m, floor, p, q)?;
    page(output, b" page", list, Position::After(p, q))?;
    page(output, b" start", list, Position::Start)?;
    printing::short_page(output, b" short", list, Position::After(p, q))?;
    printing::short_page(output, b" short start", list, Position::Start)?;
    points(output, m, floor, p, q, first)?;
    streams::new_line(output)
}

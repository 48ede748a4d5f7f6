// Reading a body row by row, from the degree that a reader is opened with to the end of its body.
#![tactic(auto)]

pub mod part;

ghost use Rattle.std.specs.Prelude.{◌≡◌};
ghost use Rattle.definitions.specs.Catalogue.{lookup_part, reader_refusal, reader_top, reader_gaps, next_row, next_place};

use definitions::{Reader, Row};

// A reader of a degree's body, at its first row. Where the lookup is refused it has the number and the empty part, and is at the end.
pub fn reader<'a>(file: &'a [u8], degree: u32) -> Reader<'a>
    ensures { (result.refusal ≡ reader_refusal file.now degree) × (result.body.now ≡ lookup_part file.now degree)
        × (result.degree ≡ degree) × (result.top ≡ reader_top file.now degree)
        × (result.gaps ≡ reader_gaps file.now degree) × (result.place ≡ 0) }
{
    let found = catalogue_opening::opened(file, degree);
    let refusal = found.refusal;
    let offset = found.offset;
    let size = found.size;
    let top = found.top;
    let gaps = found.gaps;
    let body = part::cut(file, offset, size);
    Reader {
        refusal,
        body,
        degree,
        top,
        gaps,
        place: 0,
    }
}

// The row that a reader is at, or the end.
pub fn next<'a>(at: Reader<'a>) -> Option<Row>
    ensures { result ≡ next_row at.entry.degree at.entry.top at.entry.gaps at.entry.body.now at.entry.place }
{
    catalogue_rows::row_at(at.body, at.degree, at.top, at.gaps, at.place)
}

// The reader behind that row; at the end it stays.
pub fn advance<'a>(at: Reader<'a>) -> Reader<'a>
    ensures { (result.refusal ≡ at.entry.refusal) × (result.body ≡ at.entry.body) × (result.degree ≡ at.entry.degree) × (result.top ≡ at.entry.top)
        × (result.gaps ≡ at.entry.gaps)
        × (result.place ≡ next_place at.entry.degree at.entry.top at.entry.gaps at.entry.body.now at.entry.place) }
{
    let refusal = at.refusal;
    let body = at.body;
    let degree = at.degree;
    let top = at.top;
    let gaps = at.gaps;
    let place = catalogue_rows::place_behind(body, degree, top, gaps, at.place);
    Reader {
        refusal,
        body,
        degree,
        top,
        gaps,
        place,
    }
}

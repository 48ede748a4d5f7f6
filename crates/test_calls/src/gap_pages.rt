// Pages with the sum of resolution gaps Δ in each row, and without. A case is a degree, T, a floor, 1 where Δ is wanted and 0 where it is not, the length of
// the slice that is lent, whose numbers are all 9999, and, for the page after a pair, p and q. Printed are, in a line, these numbers and
//     page REFUSAL K ROWS MORE    the refusal, 0 where there is none; the K that refusal 5 carries; how many rows were written; 1 where a further row exists
//     slice NUMBER NUMBER ..      the slice afterwards
// The stored answers come from a script that counted the points in every box and every cube.
use crate::cases;
use definitions::{Position, Selection};
use slice_results::FenyurkaPage;
use std::io;
use std::io::{Read, Write};

// The longest slice, and what every number of it is before a call.
const ROOM: usize = 360;

const BEFORE: u32 = 9999;

fn page<W: Write>(
    output: &mut W,
    list: Selection,
    position: Position,
    slice: &mut [u32],
) -> io::Result<()> {
    let answer = FenyurkaPage::from(ranking::page(ranking::request(list, position), slice));
    streams::print_numbers(output, b" page", &[answer.refusal, answer.quotient_degree])?;
    streams::print_number(output, b" ", answer.count as u64)?;
    streams::print_number(output, b" ", u64::from(answer.more))?;
    streams::print_numbers(output, b" slice", slice)
}

// With a slice of the length that is asked for.
fn page_within<W: Write>(
    output: &mut W,
    list: Selection,
    position: Position,
    room: u32,
) -> io::Result<()> {
    let mut slice = [BEFORE; ROOM];
    let length = room as usize;
    if length <= ROOM {
        page(output, list, position, &mut slice[..length])?;
    }
    Ok(())
}

// A case of five numbers asks for the first page.
fn position_of(count: usize, p: u32, q: u32) -> Position {
    if count > 5 {
        Position::After(p, q)
    } else {
        Position::Start
    }
}

pub(crate) fn answer<R: Read, W: Write>(reader: &mut R, output: &mut W) -> io::Result<()> {
    let mut asked = [cases::NOT_GIVEN; 7];
    let count = cases::next_shown(reader, output, &mut asked)?;
    let [degree, top, floor, gaps, room, p, q] = asked;
    let list = Selection {
        degree,
        top,
        floor,
        gaps: gaps > 0,
    };
    page_within(output, list, position_of(count, p, q), room)?;
    streams::new_line(output)
}

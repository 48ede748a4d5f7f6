// Opening a file, and looking a degree up; and that no row is read beside the rows of a body.
use crate::print::{end, refused, row};
use std::io;
use std::io::Write;

pub(crate) fn opened<W: Write>(output: &mut W, file: &[u8]) -> io::Result<()> {
    streams::print_number(output, b"f ", file.len() as u64)?;
    match catalogue::open(file) {
        Ok(n) => {
            streams::print_number(output, b" n ", u64::from(n))?;
            streams::new_line(output)
        }
        Err(refusal) => refused(output, refusal),
    }
}

// What stands at a place that is no row's start, and the place behind it.
fn beside<W: Write>(
    output: &mut W,
    body: &[u8],
    degree: u32,
    top: u32,
    gaps: bool,
    place: usize,
) -> io::Result<()> {
    let behind = catalogue_rows::place_behind(body, degree, top, gaps, place);
    streams::print_number(output, b"@ ", place as u64)?;
    streams::print_number(output, b" > ", behind as u64)?;
    output.write_all(b" ")?;
    match catalogue_rows::row_at(body, degree, top, gaps, place) {
        Some(r) => row(output, r),
        None => end(output),
    }
}

fn print_kind<W: Write>(output: &mut W, gaps: bool) -> io::Result<()> {
    if gaps {
        output.write_all(b" D ")
    } else {
        output.write_all(b" T ")
    }
}

// The numbers of a body.
fn found<W: Write>(
    output: &mut W,
    body: &[u8],
    degree: u32,
    top: u32,
    gaps: bool,
    rows: u32,
) -> io::Result<()> {
    print_kind(output, gaps)?;
    streams::print_number(output, b"", u64::from(top))?;
    streams::print_number(output, b" r ", u64::from(rows))?;
    streams::new_line(output)?;
    beside(output, body, degree, top, gaps, 1)?;
    beside(output, body, degree, top, gaps, body.len())
}

pub(crate) fn looked_up<W: Write>(output: &mut W, file: &[u8], degree: u32) -> io::Result<()> {
    let body = catalogue::body(file, degree);
    streams::print_number(output, b"d ", u64::from(degree))?;
    streams::print_number(output, b" l ", body.len() as u64)?;
    match catalogue::lookup(file, degree) {
        Ok(numbers) => found(
            output,
            body,
            degree,
            numbers.top,
            numbers.gaps,
            numbers.rows,
        ),
        Err(refusal) => refused(output, refusal),
    }
}

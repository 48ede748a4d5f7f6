// What is printed of a row, of the end and of a refusal.
use definitions::{Refusal, Row};
use std::io;
use std::io::Write;

pub(crate) fn refused<W: Write>(output: &mut W, refusal: Refusal) -> io::Result<()> {
    streams::print_number(output, b" ! ", u64::from(answers::refusal_number(refusal)))?;
    streams::new_line(output)
}

// Δ stands behind the others where it is not 0.
pub(crate) fn row<W: Write>(output: &mut W, r: Row) -> io::Result<()> {
    streams::print_numbers(
        output,
        b"+",
        &[r.p, r.q, r.step, r.t3, r.t4, r.t5, r.t6, r.t7, r.t8],
    )?;
    if r.delta > 0 {
        streams::print_number(output, b" ", u64::from(r.delta))?;
    }
    streams::new_line(output)
}

pub(crate) fn end<W: Write>(output: &mut W) -> io::Result<()> {
    output.write_all(b".\n")
}

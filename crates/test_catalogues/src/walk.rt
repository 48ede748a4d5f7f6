// A reader, from its first row to its end.
use crate::print::{end, row};
use std::io;
use std::io::Write;

// The number that a reader carries.
fn opened<W: Write>(output: &mut W, refusal: u32) -> io::Result<()> {
    streams::print_number(output, b"R ", u64::from(refusal))?;
    streams::new_line(output)
}

pub(crate) fn rows<W: Write>(output: &mut W, file: &[u8], degree: u32) -> io::Result<()> {
    let mut at = catalogue_reader::reader(file, degree);
    opened(output, at.refusal)?;
    while let Some(r) = catalogue_reader::next(at) {
        row(output, r)?;
        at = catalogue_reader::advance(at);
    }
    end(output)
}

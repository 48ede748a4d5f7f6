// The next line of the input, and what is printed of it.
use std::io;
use std::io::{Read, Write};

// More bytes than the longest line.
const LINE_ROOM: usize = 80;

// What stands for a number that a line leaves out: it has more digits than a line can hold.
pub(crate) const NOT_GIVEN: u32 = 4294967295;

// Its numbers, and how many they are; those behind stay.
pub(crate) fn next<R: Read>(reader: &mut R, asked: &mut [u32]) -> io::Result<usize> {
    let mut input = [b'\n'; LINE_ROOM];
    streams::read_line(reader, &mut input)?;
    Ok(line::read_numbers(&input, asked))
}

// The same of a line that is printed as it came. A line of text has no numbers.
pub(crate) fn next_shown<R: Read, W: Write>(
    reader: &mut R,
    output: &mut W,
    asked: &mut [u32],
) -> io::Result<usize> {
    let mut input = [b'\n'; LINE_ROOM];
    let n = streams::read_line(reader, &mut input)?;
    streams::write_front(output, &input, n)?;
    Ok(line::read_numbers(&input, asked))
}

// The numbers that are asked with, at the start of a line.
pub(crate) fn show<W: Write>(output: &mut W, asked: &[u32]) -> io::Result<()> {
    if let [first, others @ ..] = asked {
        streams::print_number(output, b"", u64::from(*first))?;
        streams::print_numbers(output, b"", others)?;
    }
    Ok(())
}

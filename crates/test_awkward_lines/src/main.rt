// Lines that a careless reader would take, or refuse, wrongly, lists of many pages and lists at several floors, with what the listing program prints
// for each. There is the least room that is lawful, for one row and its text, so that a list comes in many parts. Lines that end with their only
// newline stand in the file `stdin`, the others here.
#![tactic(auto)]

use limits::LONGEST_ROW;
use listing_program::program;
use paged_rows::STEP_ROOM;
use std::io;
use std::io::{Read, Write};

fn print<W: Write>(output: &mut W, line: &[u8]) -> io::Result<()> {
    program::print(output, line, LONGEST_ROW, STEP_ROOM)
}

// The next lines of the input.
fn print_next<R: Read, W: Write>(input: &mut R, output: &mut W, lines: u32) -> io::Result<()> {
    for _ in 0..lines {
        program::run_within(input, output, LONGEST_ROW, STEP_ROOM)?;
    }
    Ok(())
}

fn answer<R: Read, W: Write>(input: &mut R, output: &mut W) -> io::Result<()> {
    print(output, b"")?;
    print_next(input, output, 1)?;
    print(output, b" ")?;
    print_next(input, output, 17)?;
    print(output, b"3 4 3 0\x0d")?;
    print_next(input, output, 12)?;
    print(output, b"\n3 4 3 0\n")?;
    print_next(input, output, 12)?;
    print(output, b"3 4 3 0")?;
    print_next(input, output, 1)?;
    print(output, b"3 4 3 0\nxyz 9\n")?;
    print(output, b"3 4 3 0\n3 4 4 0\n")?;
    print(output, b"3 4 3\n0\n")?;
    print(output, b"3 8 50 0")?;
    print_next(input, output, 70)
}

fn main(rt: HostRuntime) -> io::Result<()> {
    answer(&mut rt.stdin(), &mut rt.stdout())
}

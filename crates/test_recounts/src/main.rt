// Lines that a careless reader would take, or refuse, wrongly, every refusal and where two meet, and pairs of degrees 2 to 8, with what `recount` prints
// for each. Lines that end with their only newline stand in the file `stdin`, the others here.
#![tactic(auto)]

use std::io;
use std::io::{Read, Write};

fn print_next<R: Read, W: Write>(input: &mut R, output: &mut W, lines: u32) -> io::Result<()> {
    for _ in 0..lines {
        recount_program::run(input, output)?;
    }
    Ok(())
}

fn answer<R: Read, W: Write>(input: &mut R, output: &mut W) -> io::Result<()> {
    recount_program::print(output, b"")?;
    recount_program::print(output, b"3 11 2 2")?;
    recount_program::print(output, b"3 11 2 2\nxyz")?;
    recount_program::print(output, b"3 11 2\n2\n")?;
    recount_program::print(output, b"\n3 11 2 2\n")?;
    recount_program::print(output, b"3 11 2 2 \n")?;
    // As many lines as the input has.
    print_next(input, output, 234)
}

fn main(rt: HostRuntime) -> io::Result<()> {
    answer(&mut rt.stdin(), &mut rt.stdout())
}

// Catalogues whole and damaged: each two lines of the input are a degree and a file in hexadecimal. Printed are what opening and looking up answer,
// and what a reader of the degree hands out, to its end:
//     f LENGTH n ENTRIES                        the file's length, and how many degrees it has
//     d DEGREE l LENGTH T TOP r ROWS            the degree, the length of its body, T and the row count; D for T where the rows have Δ
//     @ PLACE > BEHIND .                        no row stands at this place of the body, and the place stays
//     R NUMBER                                  the number that a reader carries
//     + p q σ t(3) .. t(8)                      a row, and behind it Δ where it is not 0
//     .                                         the end
// In place of what is refused stands ! and the number.
#![tactic(auto)]

mod lookup; // opening, and looking a degree up
mod print; // what is printed with
mod walk; // a reader, from its first row to its end

use std::io;
use std::io::{Read, Write};

// As many degrees and files as the input has.
const CATALOGUES: u32 = 163;

// More bytes than the longest line.
const LINE_ROOM: usize = 320;

fn answers<W: Write>(output: &mut W, file: &[u8], degree: u32) -> io::Result<()> {
    lookup::opened(output, file)?;
    lookup::looked_up(output, file, degree)?;
    walk::rows(output, file, degree)
}

// The value of a hexadecimal digit.
fn digit(byte: u8) -> u8 {
    // By hand: it reads a byte that is no digit too, where `to_digit` has none.
    byte % 16 + byte / 64 * 9
}

// The bytes that the digits of a line are, in place: each byte takes its two digits one after the other, and what it was before is shifted out.
fn decode(line: &mut [u8]) {
    for k in 0..line.len() {
        line[k / 2] = line[k / 2] << 4 | digit(line[k]);
    }
}

// The next two lines of the input.
fn answer_lines<R: Read, W: Write>(input: &mut R, output: &mut W) -> io::Result<()> {
    let mut line = [b'\n'; LINE_ROOM];
    streams::read_line(input, &mut line)?;
    let mut degree = [0u32; 1];
    line::read_numbers(&line, &mut degree);
    let n = streams::read_line(input, &mut line)?;
    decode(&mut line);
    answers(output, &line[..n / 2], degree[0])
}

fn main(rt: HostRuntime) -> io::Result<()> {
    let mut input = rt.stdin();
    let mut output = rt.stdout();
    for _ in 0..CATALOGUES {
        answer_lines(&mut input, &mut output)?;
    }
    Ok(())
}

// What calls about pairs and lists answer, case by case, in sections of the input. A section begins with a line that says what it has, which is printed, and
// a line of two numbers: the kind of its cases, and how many they are. A case is a line of numbers, with a line of text before it where the kind has one.
//     1  examples.rt       the unstarred examples of document 01
//     2  quotients.rt      how bad quotients are
//     3  floors.rt         floors, and the orders of their refusals
//     4  gap_sums.rt       sums of resolution gaps
//     5  gap_pages.rt      pages whose rows have them, and pages without
//     6  tables.rt         Tables 1 and 2 of document 001
#![tactic(auto)]

mod cases; // the next line of the input
mod printing; // what two kinds of cases print of a call
mod examples;
mod floors;
mod gap_pages;
mod gap_sums;
mod quotients;
mod tables;

use std::io;
use std::io::{Read, Write};

// As many sections as the input has.
const SECTIONS: u32 = 6;

// The kinds of cases, as the input numbers them.
const EXAMPLES: u32 = 1;

const QUOTIENTS: u32 = 2;

const FLOORS: u32 = 3;

const GAPS: u32 = 4;

const GAP_PAGES: u32 = 5;

// The next case, and the hash of the examples afterwards.
fn case<R: Read, W: Write>(
    reader: &mut R,
    output: &mut W,
    kind: u32,
    hash: u64,
) -> io::Result<u64> {
    match kind {
        EXAMPLES => return examples::answer(reader, output, hash),
        QUOTIENTS => quotients::answer(reader, output)?,
        FLOORS => floors::answer(reader, output)?,
        GAPS => gap_sums::answer(reader, output)?,
        GAP_PAGES => gap_pages::answer(reader, output)?,
        _ => tables::answer(reader, output)?,
    }
    Ok(hash)
}

// So many cases of a kind.
fn answer_all<R: Read, W: Write>(
    reader: &mut R,
    output: &mut W,
    kind: u32,
    count: u32,
) -> io::Result<()> {
    let mut hash = 0;
    for _ in 0..count {
        hash = case(reader, output, kind, hash)?;
    }
    Ok(())
}

// The next section.
fn section<R: Read, W: Write>(reader: &mut R, output: &mut W) -> io::Result<()> {
    let mut asked = [0u32; 2];
    cases::next_shown(reader, output, &mut asked)?;
    streams::new_line(output)?;
    cases::next(reader, &mut asked)?;
    answer_all(reader, output, asked[0], asked[1])
}

fn main(rt: HostRuntime) -> io::Result<()> {
    let mut input = rt.stdin();
    let mut output = rt.stdout();
    for _ in 0..SECTIONS {
        section(&mut input, &mut output)?;
    }
    Ok(())
}

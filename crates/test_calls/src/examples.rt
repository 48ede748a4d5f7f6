// Every unstarred example of document 01 but the catalogue's. A case is two lines: the text before the answer, and numbers. These are the kind of call, the
// length of the slice that is lent, whose numbers are all 9, and the arguments:
//     1 0 m p q               generator::judge
//     2 0 m p q s             net::t_value
//     3 LENGTH                ranking::page of degree 3 up to dimension 4 from the start, and what the slice holds afterwards
//     4 LENGTH p q            the same after (p, q)
//     5 LENGTH m p q first    points::points, and what the slice holds afterwards
//     6 LENGTH m p q first    points::points, and the words that were written go into the hash
//     7 0                     the hash
use crate::cases;
use definitions::{Position, Selection};
use figure_results::FenyurkaTValue;
use pair_results::FenyurkaJudgement;
use slice_results::{FenyurkaPage, FenyurkaPoints};
use std::io;
use std::io::{Read, Write};

// The kinds of calls, as the input numbers them. Constants: an enum would list each of them a second time, to be read from its number.
const JUDGE: u32 = 1;

const T_VALUE: u32 = 2;

const FIRST_PAGE: u32 = 3;

const PAGE_AFTER: u32 = 4;

const WORDS: u32 = 5;

const HASHED_WORDS: u32 = 6;

// The longest slice: a full period comes in pieces.
const PIECE: usize = 4096;

// Document 01 is read with floor 0.
const NO_FLOOR: u32 = 0;

// The value behind its word, or the refusal.
fn print_answer<W: Write>(output: &mut W, word: &[u8], refusal: u32, value: u64) -> io::Result<()> {
    if refusal > 0 {
        streams::print_number(output, b" refused ", u64::from(refusal))
    } else {
        streams::print_number(output, word, value)
    }
}

// A number of the slice is printed, or goes into the hash, which tells the order too: modulo 2^32 it is taken 31 times, and the word is added.
fn show<W: Write>(output: &mut W, kind: u32, number: u32, hash: u64) -> io::Result<u64> {
    if kind == HASHED_WORDS {
        return Ok(hash % 4294967296 * 31 + u64::from(number));
    }
    if kind == WORDS {
        streams::new_line(output)?;
        write!(output, "{number:08x}")?;
    } else {
        streams::print_number(output, b" ", u64::from(number))?;
    }
    Ok(hash)
}

// The first n numbers of the slice, and the hash afterwards.
fn show_first<W: Write>(
    output: &mut W,
    kind: u32,
    slice: &[u32; PIECE],
    n: usize,
    before: u64,
) -> io::Result<u64> {
    let mut hash = before;
    for number in slice.iter().take(n) {
        hash = show(output, kind, *number, hash)?;
    }
    Ok(hash)
}

fn judge<W: Write>(output: &mut W, asked: &[u32; 6]) -> io::Result<()> {
    let answer = FenyurkaJudgement::from(generator::judge(asked[2], NO_FLOOR, asked[3], asked[4]));
    print_answer(output, b" step ", answer.refusal, u64::from(answer.step))
}

fn t_value<W: Write>(output: &mut W, asked: &[u32; 6]) -> io::Result<()> {
    let answer = FenyurkaTValue::from(net::t_value(asked[2], asked[3], asked[4], asked[5]));
    print_answer(output, b" is ", answer.refusal, u64::from(answer.t))
}

fn print_page<W: Write>(output: &mut W, answer: FenyurkaPage) -> io::Result<()> {
    print_answer(output, b" rows ", answer.refusal, answer.count as u64)?;
    if answer.refusal > 0 {
        output.write_all(b":")
    } else if answer.more > 0 {
        output.write_all(b" more:")
    } else {
        output.write_all(b" end:")
    }
}

fn page<W: Write>(output: &mut W, position: Position, slice: &mut [u32]) -> io::Result<()> {
    let list = Selection {
        degree: 3,
        top: 4,
        floor: NO_FLOOR,
        gaps: false,
    };
    let answer = FenyurkaPage::from(ranking::page(ranking::request(list, position), slice));
    print_page(output, answer)
}

// The answer, and how many words were written.
fn points<W: Write>(output: &mut W, asked: &[u32; 6], slice: &mut [u32]) -> io::Result<usize> {
    let answer = FenyurkaPoints::from(points::points(
        asked[2], NO_FLOOR, asked[3], asked[4], asked[5], slice,
    ));
    print_answer(output, b" count ", answer.refusal, answer.count as u64)?;
    Ok(answer.count)
}

// The answer, and how many numbers of the slice are shown behind it.
fn call<W: Write>(
    output: &mut W,
    asked: &[u32; 6],
    slice: &mut [u32],
    hash: u64,
) -> io::Result<usize> {
    match asked[0] {
        JUDGE => judge(output, asked)?,
        T_VALUE => t_value(output, asked)?,
        FIRST_PAGE => page(output, Position::Start, slice)?,
        PAGE_AFTER => page(output, Position::After(asked[2], asked[3]), slice)?,
        WORDS => {
            points(output, asked, slice)?;
        }
        HASHED_WORDS => return points(output, asked, slice),
        _ => streams::print_number(output, b" ", hash % 4294967296)?,
    }
    Ok(slice.len())
}

// The call with a slice of the length that is asked for, what is shown of it, and the hash afterwards.
fn ask<W: Write>(output: &mut W, asked: &[u32; 6], hash: u64) -> io::Result<u64> {
    let mut slice = [9u32; PIECE];
    let length = asked[1] as usize;
    if length > PIECE {
        return Ok(hash);
    }
    let shown = call(output, asked, &mut slice[..length], hash)?;
    show_first(output, asked[0], &slice, shown, hash)
}

// The next example, and the hash afterwards.
pub(crate) fn answer<R: Read, W: Write>(
    reader: &mut R,
    output: &mut W,
    hash: u64,
) -> io::Result<u64> {
    let mut asked = [cases::NOT_GIVEN; 6];
    cases::next_shown(reader, output, &mut asked)?;
    cases::next(reader, &mut asked)?;
    let after = ask(output, &asked, hash)?;
    streams::new_line(output)?;
    Ok(after)
}

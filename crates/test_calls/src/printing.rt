// What two kinds of cases print of a call: the refusal, 0 where there is none, the K that refusal 5 carries, and the values.
use definitions::{Position, Selection};
use pair_results::FenyurkaJudgement;
use slice_results::{FenyurkaPage, FenyurkaPoints};
use std::io;
use std::io::Write;

pub(crate) fn judge<W: Write>(
    output: &mut W,
    m: u32,
    floor: u32,
    p: u32,
    q: u32,
) -> io::Result<()> {
    let answer = FenyurkaJudgement::from(generator::judge(m, floor, p, q));
    streams::print_numbers(
        output,
        b" judge",
        &[answer.refusal, answer.quotient_degree, answer.step],
    )
}

// A page into an empty slice: 7 where nothing comes before it.
pub(crate) fn short_page<W: Write>(
    output: &mut W,
    word: &[u8],
    list: Selection,
    position: Position,
) -> io::Result<()> {
    let answer = FenyurkaPage::from(ranking::page(ranking::request(list, position), &mut []));
    streams::print_numbers(output, word, &[answer.refusal, answer.quotient_degree])
}

// Words of a pair, and how many were written.
pub(crate) fn points<W: Write>(
    output: &mut W,
    m: u32,
    floor: u32,
    p: u32,
    q: u32,
    first: u32,
    words: &mut [u32],
) -> io::Result<usize> {
    let answer = FenyurkaPoints::from(points::points(m, floor, p, q, first, words));
    streams::print_numbers(
        output,
        b" points",
        &[answer.refusal, answer.quotient_degree],
    )?;
    Ok(answer.count)
}

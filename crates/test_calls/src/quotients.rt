// How bad the quotients of a pair are. A case is a degree, p and q. Printed are, in a line, these numbers and what four calls answer, each with the refusal
// first, 0 where there is none:
//     test REFUSAL K COMMON       the quotient test: K and the degree of the common factor
//     judge REFUSAL K STEP        judging: the K that refusal 5 carries, and the step
//     page REFUSAL K              the page after the pair, up to dimension 3, into an empty slice: 7 where the pair is accepted
//     points REFUSAL K            its words from the first on, into an empty slice
use crate::{cases, printing};
use definitions::{Position, Selection};
use pair_results::FenyurkaQuotients;
use std::io;
use std::io::{Read, Write};

// Every step is large enough.
const NO_FLOOR: u32 = 0;

fn test<W: Write>(output: &mut W, m: u32, p: u32, q: u32) -> io::Result<()> {
    let answer = FenyurkaQuotients::from(quotient_test::test_quotients(m, p, q));
    streams::print_numbers(
        output,
        b" test",
        &[answer.refusal, answer.quotient_degree, answer.common_degree],
    )
}

pub(crate) fn answer<R: Read, W: Write>(reader: &mut R, output: &mut W) -> io::Result<()> {
    let mut asked = [cases::NOT_GIVEN; 3];
    cases::next(reader, &mut asked)?;
    let [m, p, q] = asked;
    cases::show(output, &asked)?;
    let list = Selection {
        degree: m,
        top: 3,
        floor: NO_FLOOR,
        gaps: false,
    };
    test(output, m, p, q)?;
    printing::judge(output, m, NO_FLOOR, p, q)?;
    printing::short_page(output, b" page", list, Position::After(p, q))?;
    printing::points(output, m, NO_FLOOR, p, q, 0, &mut [])?;
    streams::new_line(output)
}

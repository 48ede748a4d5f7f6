// Tables 1 and 2 of document 001 for m = 10 to 16. A case is a degree and the coefficients that Table 1 prints, lowest first, p's and then q's. Printed are,
// in a line, the numbers
//     m DEGREE p q REFUSAL STEP t(3) .. t(8)
// of that pair: the refusal is 0 where the pair is accepted, and the step 0 where it is not. The stored output has the paper's figures, but for m = 15,
// where our copy of Table 1 has a coefficient too many: there stands what the definitions say, and the line behind it is without that coefficient.
use crate::cases;
use figure_results::FenyurkaTValue;
use pair_results::FenyurkaJudgement;
use std::io;
use std::io::{Read, Write};

// Every step is large enough.
const NO_FLOOR: u32 = 0;

// The degree and its coefficients.
const MOST_NUMBERS: usize = 34;

// The number whose binary digits are these, lowest first.
fn polynomial(digits: &[u32]) -> u32 {
    digits
        .iter()
        .rev()
        .fold(0, |value, digit| value % 65536 * 2 + digit % 2)
}

fn print_t_values<W: Write>(output: &mut W, m: u32, p: u32, q: u32) -> io::Result<()> {
    for s in 3..=8 {
        let answer = FenyurkaTValue::from(net::t_value(m, p, q, s));
        streams::print_number(output, b" ", u64::from(answer.t))?;
    }
    Ok(())
}

fn print_pair<W: Write>(output: &mut W, m: u32, p: u32, q: u32) -> io::Result<()> {
    let judgement = FenyurkaJudgement::from(generator::judge(m, NO_FLOOR, p, q));
    streams::print_numbers(output, b"m", &[m, p, q, judgement.refusal, judgement.step])?;
    print_t_values(output, m, p, q)?;
    streams::new_line(output)
}

// The pair of a degree and its coefficients: the first m + 1 are p's, the next m are q's.
fn read_pair<W: Write>(output: &mut W, m: u32, numbers: &[u32]) -> io::Result<()> {
    let behind_p = m as usize + 2;
    let behind_q = behind_p + m as usize;
    if behind_q <= numbers.len() {
        let p = polynomial(&numbers[1..behind_p]);
        let q = polynomial(&numbers[behind_p..behind_q]);
        print_pair(output, m, p, q)?;
    }
    Ok(())
}

pub(crate) fn answer<R: Read, W: Write>(reader: &mut R, output: &mut W) -> io::Result<()> {
    let mut numbers = [0u32; MOST_NUMBERS];
    cases::next(reader, &mut numbers)?;
    read_pair(output, numbers[0], &numbers)
}

// The sum of resolution gaps Δ of pairs. A case is a degree, p, q, and how many q are asked for from there on, 1 where the line does not say. Printed are, in
// a line, the degree, p and q, and
//     gaps DELTA DELTA ..         for each q Δ, or 'refused' and the number of the refusal
// The stored figures of the pairs of Table 1 of document 001, m = 10 to 16, are those of Table 2, with the line of m = 15 as `tables.rt` reads it; all
// others, that line as it is printed too, come from a script that counted the points in every cube.
use crate::cases;
use figure_results::FenyurkaGaps;
use std::io;
use std::io::{Read, Write};

fn print_sum<W: Write>(output: &mut W, m: u32, p: u32, q: u32) -> io::Result<()> {
    let answer = FenyurkaGaps::from(gaps::sum_of_gaps(m, p, q));
    if answer.refusal > 0 {
        streams::print_number(output, b" refused ", u64::from(answer.refusal))
    } else {
        streams::print_number(output, b" ", u64::from(answer.delta))
    }
}

fn print_sums<W: Write>(output: &mut W, m: u32, p: u32, q: u32, count: u32) -> io::Result<()> {
    for i in 0..count {
        print_sum(output, m, p, q.wrapping_add(i))?;
    }
    Ok(())
}

pub(crate) fn answer<R: Read, W: Write>(reader: &mut R, output: &mut W) -> io::Result<()> {
    let mut asked = [cases::NOT_GIVEN, cases::NOT_GIVEN, cases::NOT_GIVEN, 1];
    cases::next(reader, &mut asked)?;
    let [m, p, q, count] = asked;
    cases::show(output, &[m, p, q])?;
    output.write_all(b" gaps")?;
    print_sums(output, m, p, q, count)?;
    streams::new_line(output)
}

// Points: the words of a pair's full period, written to a lent slice.
#![tactic(auto)]

ghost use Rattle.std.specs.Prelude.{◌≡◌};
ghost use Rattle.definitions.specs.Calls.{points_answer, points_slice};

use definitions::Refusal;
use polynomial::digits;
use words::writing;

// Writes words first, first + 1, .. until the slice or the period ends, and says how many; or the documents' refusal 1, 12, 3, 4, 5, 6, 11 or 8.
pub fn points(
    degree: u32,
    floor: u32,
    p: u32,
    q: u32,
    first: u32,
    out: &mut [u32],
) -> Result<usize, Refusal>
    ensures answer { result ≡ points_answer degree floor p q first out.old }
    ensures slice { out.new ≡ points_slice degree floor p q first out.old }
{
    if !limits::is_lawful_degree(degree) {
        return Err(Refusal::WrongDegree);
    }
    if !limits::is_lawful_floor(floor) {
        return Err(Refusal::WrongFloor);
    }
    verdicts::check_pair(degree, floor, p, q)?;
    let last = digits::leading_term(degree) - 2;
    if first > last {
        return Err(Refusal::BeyondPeriod);
    }
    let count = out.len().min((last - first) as usize + 1);
    writing::write(degree, p, q, first, &mut out[..count]);
    Ok(count)
}

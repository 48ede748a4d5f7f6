// Judging a pair (p, q): its step, or why it is refused.
#![tactic(auto)]

ghost use Rattle.std.specs.Prelude.{◌≡◌};
ghost use Rattle.definitions.specs.Calls.{judgement};

use definitions::Refusal;

pub mod common_divisor; // the greatest common divisor of two numbers
pub mod pair; // judging a pair of a lawful degree

// The step of a pair of the degree given, which is at least the floor; or the documents' refusal 1, 12, 3, 4, 5, 6 or 11.
pub fn judge(degree: u32, floor: u32, p: u32, q: u32) -> Result<u32, Refusal>
    ensures { result ≡ judgement degree floor p q }
{
    if !limits::is_lawful_degree(degree) {
        return Err(Refusal::WrongDegree);
    }
    if !limits::is_lawful_floor(floor) {
        return Err(Refusal::WrongFloor);
    }
    pair::judge_pair(degree, floor, p, q)
}

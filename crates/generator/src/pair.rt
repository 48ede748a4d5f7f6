// Judging a pair of a lawful degree at a floor.
ghost use Rattle.std.specs.Prelude.{◌≡◌};
ghost use Rattle.number_laws.specs.Bounds.{LawfulDegree};
ghost use Rattle.generator.specs.Judging.{pair_judgement};

use crate::common_divisor;
use definitions::Refusal;
use orders::{floors, step};
use polynomial::digits;

// The step of a pair, or the same refusal: here the step is looked for, and itself held to 2^m - 1; the floor is tested by the powers of x below it.
pub fn judge_pair(m: u32, floor: u32, p: u32, q: u32) -> Result<u32, Refusal>
    requires { LawfulDegree m }
    ensures { result ≡ pair_judgement m floor p q }
{
    verdicts::check_polynomials(m, p, q)?;
    let step = step::find_step(m, p, q);
    if common_divisor::gcd_of(step, digits::leading_term(m) - 1) != 1 {
        return Err(Refusal::StepNotCoprime);
    }
    if !floors::reaches_floor(m, floor, p, q) {
        return Err(Refusal::StepBelowFloor);
    }
    Ok(step)
}

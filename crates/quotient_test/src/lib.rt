// The quotient test: how bad the partial quotients of a pair are, whatever judging says of it.
#![tactic(auto)]

ghost use Rattle.std.specs.Prelude.{◌≡◌};
ghost use Rattle.definitions.specs.Calls.{quotient_test};

use definitions::{QuotientDegrees, Refusal};

// The largest degree among the partial quotients of q/p and the degree of the common factor, for every well-formed pair; or refusal 1 or 3.
pub fn test_quotients(degree: u32, p: u32, q: u32) -> Result<QuotientDegrees, Refusal>
    ensures { result ≡ quotient_test degree p q }
{
    if !limits::is_lawful_degree(degree) {
        return Err(Refusal::WrongDegree);
    }
    if !verdicts::is_well_formed(degree, p, q) {
        return Err(Refusal::IllFormedPair);
    }
    let degrees = quotient_degrees::quotient_degrees(p, q);
    Ok(degrees)
}

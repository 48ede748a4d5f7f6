// The sum of resolution gaps of a pair, Δ.
#![tactic(auto)]

ghost use Rattle.std.specs.Prelude.{◌≡◌};
ghost use Rattle.definitions.specs.Calls.{gap_sum};

use definitions::Refusal;

pub mod cubes; // in how many dimensions cubes of so many digits hold equally many points
pub mod sum; // the gaps added up

// Δ of a pair of the degree given, or refusal 1 or 3.
pub fn sum_of_gaps(degree: u32, p: u32, q: u32) -> Result<u32, Refusal>
    ensures { result ≡ gap_sum degree p q }
{
    if !limits::is_lawful_degree(degree) {
        return Err(Refusal::WrongDegree);
    }
    if !verdicts::is_well_formed(degree, p, q) {
        return Err(Refusal::IllFormedPair);
    }
    Ok(sum::resolution_gaps(degree, p, q))
}

// The t-value of a pair, by the least weight of digit rows that are not free.
#![tactic(auto)]

ghost use Rattle.std.specs.Prelude.{◌≡◌};
ghost use Rattle.definitions.specs.Calls.{uniformity};

use definitions::Refusal;

pub mod bound; // how little can be to come of the digit rows
pub mod values; // t-values of one pair, each from the one before

// The t-value of a pair of the degree given, or document 01's refusal 1, 2 or 3.
pub fn t_value(degree: u32, p: u32, q: u32, dimension: u32) -> Result<u32, Refusal>
    ensures { result ≡ uniformity degree p q dimension }
{
    if !limits::is_lawful_degree(degree) {
        return Err(Refusal::WrongDegree);
    }
    if !limits::is_lawful_dimension(dimension) {
        return Err(Refusal::WrongDimension);
    }
    if !verdicts::is_well_formed(degree, p, q) {
        return Err(Refusal::IllFormedPair);
    }
    let bound = bound::stop_bound(degree, p, q);
    Ok(values::t_at(degree, p, q, dimension as usize, bound))
}

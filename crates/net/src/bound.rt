// How little can be to come: a bound of the weights below which no more digit rows need be taken.
ghost use Rattle.fraction_laws.specs.WellFormed.{WellFormed};
ghost use Rattle.number_laws.specs.Bounds.{LawfulDegree};
ghost use Rattle.net.specs.Bound.{Stop};

use fractions::quotients;
use polynomial::digits;

// The bound for every pair.
pub const ANY_PAIR: u32 = 1;

// The bound where q has an inverse modulo p, as in every accepted pair.
pub const INVERTIBLE: u32 = 2;

// The sharper bound where every partial quotient of q/p has degree one, since q then has an inverse; the test costs far less than a dimension.
pub fn stop_bound(degree: u32, p: u32, q: u32) -> u32
    requires lawful_degree { LawfulDegree degree }
    requires well_formed { WellFormed degree p q }
    ensures { Stop degree p q result }
{
    let lead = digits::leading_term(degree);
    if quotients::linear_quotients(p, q, lead) {
        return INVERTIBLE;
    }
    ANY_PAIR
}

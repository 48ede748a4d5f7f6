// Why a pair of a lawful degree is refused at a floor, or that it is not. Customers call nothing here.
#![tactic(auto)]

ghost use Rattle.std.specs.Prelude.{◌≡◌};
ghost use Rattle.definitions.specs.Generator.{well_formed};
ghost use Rattle.number_laws.specs.Bounds.{LawfulDegree};
ghost use Rattle.verdicts.specs.Verdicts.{pair_verdict, Checked};

use definitions::Refusal;
use fractions::quotients;
use full_orders::primitive;
use orders::floors;
use polynomial::digits;

// 2^m ≤ p < 2^(m+1) and 1 ≤ q < 2^m: p has the degree m, and q is not 0 and has a smaller one.
pub fn is_well_formed(m: u32, p: u32, q: u32) -> bool
    requires { LawfulDegree m }
    ensures { result ≡ well_formed m p q }
{
    if p == 0 {
        return false;
    }
    if digits::degree_of(p) != m {
        return false;
    }
    if q == 0 {
        return false;
    }
    digits::degree_of(q) < m
}

// Refusal 3, 4 or 5, the tests in this order, so that the lowest number is given. K is computed only where it is told.
pub fn check_polynomials(m: u32, p: u32, q: u32) -> Result<(), Refusal>
    requires { LawfulDegree m }
    ensures { Checked m p q result }
{
    if !is_well_formed(m, p, q) {
        return Err(Refusal::IllFormedPair);
    }
    if !primitive::is_primitive(m, p) {
        return Err(Refusal::NotPrimitive);
    }
    if !quotients::linear_quotients(p, q, digits::leading_term(m)) {
        let degrees = quotient_degrees::quotient_degrees(p, q);
        return Err(Refusal::QuotientNotLinear(degrees.quotient));
    }
    Ok(())
}

// Refusal 3, 4, 5, 6 or 11. Whether the step is coprime to 2^m - 1 is told by q's order, and whether it is below the floor by the powers of x below
// it, so that nobody looks for the step.
pub fn check_pair(m: u32, floor: u32, p: u32, q: u32) -> Result<(), Refusal>
    requires { LawfulDegree m }
    ensures { result ≡ pair_verdict m floor p q }
{
    check_polynomials(m, p, q)?;
    if !primitive::has_full_order(m, p, q) {
        return Err(Refusal::StepNotCoprime);
    }
    if !floors::reaches_floor(m, floor, p, q) {
        return Err(Refusal::StepBelowFloor);
    }
    Ok(())
}

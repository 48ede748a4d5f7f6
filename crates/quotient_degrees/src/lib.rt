// How bad a pair's quotients are: the largest degree among them, and the degree of the common factor. Customers call nothing here.
#![tactic(auto)]

ghost use Rattle.std.specs.Prelude.{◌≡◌, ◌-◌, ◌≤◌, ◌<◌};
ghost use Rattle.definitions.specs.Polynomial.{degree, rem};
ghost use Rattle.definitions.specs.Generator.{quotient_degree, common_degree};

use definitions::QuotientDegrees;
use polynomial::digits;

// a modulo b, where the quotient has the degree `drop`: b times each of its terms, the highest first, is taken from a.
fn remainder(a: u32, b: u32, drop: u32) -> u32
    requires b_nonzero { 0 < b }
    requires b_le_a { b ≤ a }
    requires drop_value { drop ≡ degree a - degree b }
    ensures { result ≡ rem a b }
{
    let zeros = u32::leading_zeros(b);
    let mut rest = a ^ (b << drop);
    while u32::leading_zeros(rest) <= zeros {
        rest ^= b << (zeros - u32::leading_zeros(rest));
    }
    rest
}

// By Euclid's algorithm. A quotient's degree is the difference of the degrees of the two that are divided; what no longer divides is the common factor.
pub fn quotient_degrees(p: u32, q: u32) -> QuotientDegrees
    requires q_nonzero { 0 < q }
    requires q_le_p { q ≤ p }
    ensures { (result.quotient ≡ quotient_degree p q) × (result.common ≡ common_degree p q) }
{
    let mut a = p;
    let mut b = q;
    let mut degree_of_a = digits::degree_of(p);
    let mut largest: u32 = 0;
    while b != 0 {
        let degree_of_b = digits::degree_of(b);
        let degree = degree_of_a - degree_of_b;
        largest = largest.max(degree);
        let rest = remainder(a, b, degree);
        a = b;
        b = rest;
        degree_of_a = degree_of_b;
    }
    QuotientDegrees {
        quotient: largest,
        common: degree_of_a,
    }
}

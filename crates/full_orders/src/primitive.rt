// Orders by powers over the table of prime divisors r of N = 2^m - 1: of x modulo p, and of q. The table of squares is filled once for each p.
ghost use Rattle.std.specs.Prelude.{◌≡◌, ℕ, true, eqb, ◌&&◌, ◌%◌};
ghost use Rattle.definitions.specs.Polynomial.{prod, rem};
ghost use Rattle.definitions.specs.Generator.{period, primitive, coprime_step};
ghost use Rattle.number_laws.specs.Bounds.{LawfulDegree};
ghost use Rattle.polynomial_laws.specs.Degree.{HasDegree};
ghost use Rattle.fraction_laws.specs.WellFormed.{WellFormed};
ghost use Rattle.order_laws.specs.Exponents.{none_of};
ghost use Rattle.order_laws.specs.Table.{divisors_of};
ghost use Rattle.linear_maps.specs.Maps.{Maps};

use crate::powers;
use linear_maps::maps;
use orders::divisors;
use polynomial::digits;
use polynomial::residues::Residues;

// x has the order N modulo p. A p with the factor x or x + 1 is told at once.
pub fn is_primitive(m: u32, p: u32) -> bool
    requires lawful_degree { LawfulDegree m }
    requires has_degree { HasDegree p m }
    ensures { result ≡ primitive m p }
{
    let residues = Residues::modulo(m, p);
    p % 2 == 1
        && digits::parity(p) == 1
        && x_has_full_order(m, residues, &maps::square_map(residues))
}

// q has the order N modulo a primitive p. Then q's step is coprime to N, and need not be known.
pub fn has_full_order(m: u32, p: u32, q: u32) -> bool
    requires lawful_degree { LawfulDegree m }
    requires well_formed { WellFormed m p q }
    requires p_value { primitive m p ≡ true }
    ensures { result ≡ coprime_step m p q }
{
    let residues = Residues::modulo(m, p);
    q_has_full_order(m, residues, q, &maps::square_map(residues))
}

// Both orders, of x and of q. The table of squares serves both.
pub fn have_full_orders(m: u32, p: u32, q: u32) -> bool
    requires lawful_degree { LawfulDegree m }
    requires well_formed { WellFormed m p q }
    ensures { result ≡ (primitive m p && coprime_step m p q) }
{
    if p % 2 == 0 || digits::parity(p) == 0 {
        return false;
    }
    let residues = Residues::modulo(m, p);
    let squares = maps::square_map(residues);
    x_has_full_order(m, residues, &squares) && q_has_full_order(m, residues, q, &squares)
}

// x has the order N modulo an odd p: x^N is 1, which is that m squarings of x give x again, and no x^(N/r) is.
fn x_has_full_order(m: u32, residues: Residues, squares: &[u32; maps::ENTRIES]) -> bool
    requires lawful_degree { LawfulDegree m }
    requires has_degree { HasDegree residues.p m × (residues.p % 2 ≡ 1) }
    requires maps { Maps (λ a. rem (prod a a) residues.p) residues.lead squares.now }
    ensures { result ≡ primitive m residues.p }
{
    let mut power: u32 = 2;
    for _ in 0..m {
        power = maps::image(squares, power);
    }
    power == 2 && none_is_one(m, |e| powers::pow_x(residues, e, squares))
}

// No q^(N/r) is 1, for a primitive p.
fn q_has_full_order(m: u32, residues: Residues, q: u32, squares: &[u32; maps::ENTRIES]) -> bool
    requires lawful_degree { LawfulDegree m }
    requires well_formed { WellFormed m residues.p q }
    requires p_value { primitive m residues.p ≡ true }
    requires maps { Maps (λ a. rem (prod a a) residues.p) residues.lead squares.now }
    ensures { result ≡ coprime_step m residues.p q }
{
    let products = maps::times_map(residues, q);
    none_is_one(m, |e| powers::pow_q(e, &products, squares))
}

// No power with the exponent N/r is 1, r a prime divisor of N; `power` gives the power with an exponent.
fn none_is_one<P: Fn(u32) -> u32>(m: u32, power: P) -> bool
    requires lawful_degree { LawfulDegree m }
    requires callable { P.IsAlwaysCallable power }
    ensures { (f : ℕ → ℕ) → ((e v : ℕ) → P.post power e v → v ≡ f e) → result ≡ none_of (λ e. eqb (f e) 1) (period m) (divisors_of m) }
{
    let period = digits::leading_term(m) - 1;
    for r in divisors::divisors_of(m) {
        if r == 0 {
            return true;
        }
        if power(period / r) == 1 {
            return false;
        }
    }
    true
}

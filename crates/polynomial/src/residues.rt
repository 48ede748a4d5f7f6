// Residues modulo p, whose leading term is `lead`: polynomials of a smaller degree.
ghost use Rattle.std.specs.Prelude.{◌≡◌, ℕ, ◌*◌, ◌^◌, ◌<◌};
ghost use Rattle.definitions.specs.Polynomial.{prod, power, rem};
ghost use Rattle.number_laws.specs.Bounds.{LawfulDegree};
ghost use Rattle.polynomial_laws.specs.Degree.{HasDegree};
ghost use Rattle.polynomial.specs.Modulus.{Modulus};
ghost use Rattle.polynomial.specs.Powers.{InTurn, Gives};

use crate::digits;

// x times y, with one conditional subtraction of p. The mask compiles to a conditional move, where a comparison would be a branch that the data decides.
pub fn times_x(y: u32, p: u32, lead: u32) -> u32
    requires modulus { Modulus p lead }
    requires y_lt_lead { y < lead }
    ensures { (result ≡ rem (2 * y) p) × (result < lead) }
{
    let double = y * 2;
    if double & lead == 0 {
        double
    } else {
        double ^ p
    }
}

// The product of a and b, q and X_(i-1) in document 001, equation (6): a step takes one coefficient of a, the highest first, and one conditional subtraction.
pub fn mul_mod(a: u32, b: u32, p: u32, lead: u32) -> u32
    requires modulus { Modulus p lead }
    requires b_lt_lead { b < lead }
    ensures { (result ≡ rem (prod a b) p) × (result < lead) }
{
    if a == 0 {
        return 0;
    }
    let mut product: u32 = 0;
    let mut term = 1 << digits::degree_of(a);
    while term != 0 {
        let summand = if a & term == 0 { 0 } else { b };
        product = times_x(product, p, lead) ^ summand;
        term /= 2;
    }
    product
}

// q to the e, where `square` squares a residue and `times_q` multiplies one by q: for each digit of e, the highest first, the power is squared, and
// multiplied by q where the digit is 1.
pub fn power_by<S: Fn(u32) -> u32, T: Fn(u32) -> u32>(e: u32, square: S, times_q: T) -> u32
    requires { InTurn (S.pre square) (S.post square) (T.pre times_q) (T.post times_q) 1 }
    ensures { (p lead q : ℕ) → Modulus p lead → Gives (S.post square) (λ y. prod y y) p lead → Gives (T.post times_q) (λ y. prod y q) p lead
        → (result ≡ rem (power q e) p) × (result < lead) }
{
    let mut power: u32 = 1;
    for i in (0..32 - u32::leading_zeros(e)).rev() {
        power = square(power);
        if (e >> i) % 2 == 1 {
            power = times_q(power);
        }
    }
    power
}

// q to the e, by products.
pub fn pow_mod(q: u32, e: u32, p: u32, lead: u32) -> u32
    requires modulus { Modulus p lead }
    requires q_lt_lead { q < lead }
    ensures { (result ≡ rem (power q e) p) × (result < lead) }
{
    power_by(e, |y| mul_mod(y, y, p, lead), |y| mul_mod(y, q, p, lead))
}

// The residues modulo p: p and its leading term, which belong together.
#[derive(Clone, Copy)]
pub struct Residues {
    pub p: u32,
    pub lead: u32,
    pub ghost modulus: { Modulus p lead },
}

impl Residues {
    // Those modulo p, a polynomial of degree m.
    pub fn modulo(m: u32, p: u32) -> Residues
        requires lawful { LawfulDegree m }
        requires degree { HasDegree p m }
        ensures { (result.p ≡ p) × (result.lead ≡ 2 ^ m) }
    {
        Residues {
            p,
            lead: digits::leading_term(m),
        }
    }

    // x times y.
    pub fn times_x(self, y: u32) -> u32
        requires { y < self.lead }
        ensures { (result ≡ rem (2 * y) self.p) × (result < self.lead) }
    {
        times_x(y, self.p, self.lead)
    }

    // The product of a and b.
    pub fn product(self, a: u32, b: u32) -> u32
        requires { b < self.lead }
        ensures { (result ≡ rem (prod a b) self.p) × (result < self.lead) }
    {
        mul_mod(a, b, self.p, self.lead)
    }

    // q to the e.
    pub fn power(self, q: u32, e: u32) -> u32
        requires { q < self.lead }
        ensures { (result ≡ rem (power q e) self.p) × (result < self.lead) }
    {
        pow_mod(q, e, self.p, self.lead)
    }
}

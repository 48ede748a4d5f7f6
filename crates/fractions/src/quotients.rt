// The partial quotients of q/p.
ghost use Rattle.std.specs.Prelude.{◌≡◌, ◌<◌};
ghost use Rattle.definitions.specs.Generator.{linear_quotients};
ghost use Rattle.polynomial.specs.Modulus.{Modulus};

// Whether every partial quotient of q/p has degree one and p and q have no common factor. Euclid's step from (a, b), where `lead_of_a` is the leading
// term of a: the quotient has degree one where b has the digit below; then x b or (x + 1) b is taken from a. The first other quotient decides.
// p and its leading term stay apart, as docs/CONFORMANCE.md names this function.
pub fn linear_quotients(p: u32, q: u32, lead: u32) -> bool
    requires modulus { Modulus p lead }
    requires q_lt_lead { q < lead }
    ensures { result ≡ linear_quotients p q }
{
    let mut a = p;
    let mut b = q;
    let mut lead_of_a = lead;
    while b != 0 {
        lead_of_a /= 2;
        if b & lead_of_a == 0 {
            return false;
        }
        let less = a ^ (b * 2);
        a = b;
        if less & lead_of_a == 0 {
            b = less;
        } else {
            b = less ^ a;
        }
    }
    a == 1
}

// The step of a row by giant steps. With B = 2^(m/2), the B residues q, q x, .., q x^(B-1) are the baby steps, and x^B, x^(2B), .. the giant ones. The
// first giant step x^(Bi) that is a baby step, q x^j, tells the step Bi - j. Judging keeps the plain finder of `orders`, as document 01 has it. Customers
// call nothing here.
#![tactic(auto)]

ghost use Rattle.std.specs.Prelude.{◌≡◌, true};
ghost use Rattle.definitions.specs.Generator.{primitive, step};
ghost use Rattle.number_laws.specs.Bounds.{LawfulDegree};
ghost use Rattle.fraction_laws.specs.WellFormed.{WellFormed};

use baby_steps::Steps;
use linear_maps::maps;
use polynomial::residues::Residues;

// The first power of x, from x itself, that equals q. Where p is primitive every q is met, 1 as the last.
pub fn step_of(m: u32, p: u32, q: u32) -> u32
    requires lawful_degree { LawfulDegree m }
    requires well_formed { WellFormed m p q }
    requires p_value { primitive m p ≡ true }
    ensures { result ≡ step m p q }
{
    let residues = Residues::modulo(m, p);
    let count: u32 = 1 << (m / 2);
    let steps = Steps::of(residues, q, count);
    let factor = residues.power(2, count);
    let map = maps::times_map(residues, factor);
    let mut giant = factor;
    let mut e = count;
    let step = loop {
        if let Some(place) = steps.place_of(giant) {
            break e + 1 - place;
        }
        giant = maps::image(&map, giant);
        e += count;
    };
    step
}

// The step finder.
ghost use Rattle.std.specs.Prelude.{◌≡◌, true};
ghost use Rattle.definitions.specs.Generator.{primitive, step};
ghost use Rattle.number_laws.specs.Bounds.{LawfulDegree};
ghost use Rattle.fraction_laws.specs.WellFormed.{WellFormed};

use polynomial::residues::Residues;

// The first power of x, from x itself, that equals q. Where p is primitive every q is met, 1 as the last.
pub fn find_step(m: u32, p: u32, q: u32) -> u32
    requires lawful_degree { LawfulDegree m }
    requires well_formed { WellFormed m p q }
    requires p_value { primitive m p ≡ true }
    ensures { result ≡ step m p q }
{
    let residues = Residues::modulo(m, p);
    let mut power: u32 = 2;
    let mut e: u32 = 1;
    loop {
        if power == q {
            break e;
        }
        power = residues.times_x(power);
        e += 1;
    }
}

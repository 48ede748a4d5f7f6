// Whether a step is at least a floor, told without the step.
ghost use Rattle.std.specs.Prelude.{◌≡◌, true};
ghost use Rattle.definitions.specs.Generator.{primitive, linear_quotients, reaches_floor};
ghost use Rattle.number_laws.specs.Bounds.{LawfulDegree};
ghost use Rattle.fraction_laws.specs.WellFormed.{WellFormed};

use polynomial::residues::Residues;

// Whether no power of x below the floor is q. Where the quotients are linear q has the degree m - 1, so the powers before x^(m-1) are passed over.
pub fn reaches_floor(m: u32, floor: u32, p: u32, q: u32) -> bool
    requires lawful_degree { LawfulDegree m }
    requires well_formed { WellFormed m p q }
    requires p_value { primitive m p ≡ true }
    requires q_value { linear_quotients p q ≡ true }
    ensures { result ≡ reaches_floor m floor p q }
{
    let residues = Residues::modulo(m, p);
    let mut power = residues.lead / 2;
    for _ in m - 1..floor {
        if power == q {
            return false;
        }
        power = residues.times_x(power);
    }
    true
}

// The gaps of a pair added up, by digits in place of dimensions.
ghost use Rattle.std.specs.Prelude.{◌≡◌};
ghost use Rattle.definitions.specs.Gaps.{sum_of_gaps};
ghost use Rattle.number_laws.specs.Bounds.{LawfulDegree};
ghost use Rattle.fraction_laws.specs.WellFormed.{WellFormed};

use crate::cubes::dimensions;
use digit_rows::powers::powers_of;
use polynomial::residues::Residues;

// The sum over s of floor(m/s) - l_s is that over l of floor(m/l) - s_l, where s_l is the largest dimension in which the cubes of l digits a side hold
// equally many points; from half the degree on nothing is added. So the digit rows of one l serve all dimensions.
pub fn resolution_gaps(degree: u32, p: u32, q: u32) -> u32
    requires lawful_degree { LawfulDegree degree }
    requires well_formed { WellFormed degree p q }
    ensures { result ≡ sum_of_gaps degree p q }
{
    let powers = powers_of(Residues::modulo(degree, p), q, degree as usize);
    let mut gaps: u32 = 0;
    for digits in 1..=degree / 2 {
        gaps += degree / digits - dimensions(degree, p, q, digits, &powers);
    }
    gaps
}

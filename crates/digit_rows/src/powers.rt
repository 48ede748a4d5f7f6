// The powers of q modulo p, each the first digit row of its coordinate.
ghost use Rattle.std.specs.Prelude.{◌≤◌};
ghost use Rattle.definitions.specs.Generator.{largest_degree};
ghost use Rattle.digit_rows.specs.Powers.{PowersOf};

use limits::COORDINATES;
use polynomial::residues::Residues;

// The first n of 1, q, q^2, .. among the residues: one for each of n coordinates.
pub fn powers_of(residues: Residues, q: u32, n: usize) -> [u32; COORDINATES]
    requires n_le_largest_degree { n ≤ largest_degree }
    ensures { PowersOf q residues.p residues.lead n result }
{
    let mut powers: [u32; COORDINATES] = [1; COORDINATES];
    for j in 1..n {
        powers[j] = residues.product(q, powers[j - 1]);
    }
    powers
}

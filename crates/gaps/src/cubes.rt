// In how many dimensions the cubes of so many digits a side hold equally many points: coordinate by coordinate, while its digit rows are free.
ghost use Rattle.std.specs.Prelude.{◌≡◌, suc, ◌*◌, ◌^◌, ◌≤◌};
ghost use Rattle.definitions.specs.Generator.{largest_degree};
ghost use Rattle.number_laws.specs.Bounds.{LawfulDegree, Between};
ghost use Rattle.polynomial_laws.specs.Degree.{HasDegree};
ghost use Rattle.net_laws.specs.Point.{digit_row};
ghost use Rattle.gap_laws.specs.Resolution.{dimensions as dimensionsOf};
ghost use Rattle.digit_rows.specs.Powers.{PowersOf};
ghost use Rattle.gaps.specs.Taken.{Taken, Tried};

use digit_rows::reduction::{BASIS_ROOM, reduce};
use limits::COORDINATES;
use polynomial::residues::Residues;

// Takes the digit rows of the coordinate behind `last`, of which `first` is the first: whether as many as `digits` are free together with those of the
// coordinates up to `last`, whose vectors the basis begins with. Digit rows of coordinate 0 are powers of x, so one is free where the vectors leave at
// least x to the digits of it.
fn take_coordinate(
    residues: Residues,
    q: u32,
    digits: u32,
    last: u32,
    first: u32,
    basis: &mut [u32; BASIS_ROOM],
) -> bool
    requires first_value { first ≡ digit_row residues.p q (suc last) 0 }
    requires digits_bound { suc last * digits ≤ largest_degree }
    requires taken { Taken (digit_row residues.p q) digits last 0 basis.old }
    ensures { Tried (digit_row residues.p q) digits last basis.new result }
{
    let mut row = first;
    for i in 0..digits {
        let taken = (last * digits + i) as usize;
        let v = reduce(&basis[..taken], row);
        if v < 1 << digits {
            return false;
        }
        basis[taken] = v;
        row = residues.times_x(row);
    }
    true
}

// The largest dimension in which the cubes of `digits` digits a side hold equally many points.
pub fn dimensions(degree: u32, p: u32, q: u32, digits: u32, powers: &[u32; COORDINATES]) -> u32
    requires lawful_degree { LawfulDegree degree × HasDegree p degree }
    requires between { Between 1 degree digits }
    requires powers_of { PowersOf q p (2 ^ degree) degree powers.now }
    ensures { result ≡ dimensionsOf degree p q digits }
{
    let residues = Residues::modulo(degree, p);
    let most = degree / digits;
    let mut basis: [u32; BASIS_ROOM] = [0; BASIS_ROOM];
    for last in 0..most - 1 {
        let first = powers[last as usize + 1];
        if !take_coordinate(residues, q, digits, last, first, &mut basis) {
            return last + 1;
        }
    }
    most
}

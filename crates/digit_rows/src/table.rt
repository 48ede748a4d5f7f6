// The digit rows of a pair in a table, one coordinate after the other: each dimension needs one coordinate more.
ghost use Rattle.std.specs.Prelude.{suc};
ghost use Rattle.digit_rows.specs.Table.{OneOf, Tabled, Begun};

use limits::{LARGEST_DEGREE, LARGEST_TOP};
use polynomial::residues::Residues;

// Digit row i of coordinate j stands at j times the largest degree and i.
pub const TABLE: usize = LARGEST_TOP as usize * LARGEST_DEGREE as usize;

// The table with coordinate 0 alone, of which only the first digit row is used: that is 1.
pub fn first_coordinate() -> [u32; TABLE]
    ensures { Begun result }
{
    [1; TABLE]
}

// Writes the digit rows of one coordinate more: the first is q times that of the coordinate before, and each other x times the one before it.
pub fn add_coordinate(
    residues: Residues,
    q: u32,
    degree: usize,
    coordinate: usize,
    table: &mut [u32; TABLE],
)
    requires one_of { OneOf degree coordinate }
    requires tabled { Tabled residues.p q residues.lead degree coordinate table.old }
    ensures { Tabled residues.p q residues.lead degree (suc coordinate) table.new }
{
    let start = coordinate * LARGEST_DEGREE as usize;
    let mut row = residues.product(q, table[start - LARGEST_DEGREE as usize]);
    for place in &mut table[start..start + degree] {
        *place = row;
        row = residues.times_x(row);
    }
}

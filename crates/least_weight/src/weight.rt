// The least weight with one coordinate more.
ghost use Rattle.std.specs.Prelude.{suc, ◌<◌, ◌≤◌};
ghost use Rattle.definitions.specs.Generator.{largest_degree};
ghost use Rattle.definitions.specs.Ranking.{largest_top};
ghost use Rattle.least_weight.specs.Search.{largest_bound, Words, LeastFound};

use crate::ranges::{Place, Search, width};
use digit_rows::table::TABLE;
use relations::vectors::SLOTS;

// The least weight with the coordinate, where `least` is that without it: the search begins with nothing taken, and with one digit of the coordinate.
pub fn least_weight(
    coordinate: u32,
    least: u32,
    degree: u32,
    bound: u32,
    table: &[u32; TABLE],
) -> u32
    requires words { Words table.now }
    requires le_bound { (1 ≤ bound) × (bound ≤ largest_bound) × (1 ≤ coordinate) × (coordinate < largest_top) × (degree ≤ largest_degree) × (least ≤ suc degree) }
    ensures { LeastFound table.now degree bound coordinate least result }
{
    let mut basis: [u64; SLOTS] = [0; SLOTS];
    let search = Search {
        degree,
        bound,
        table,
    };
    let start = Place {
        coordinate,
        taken: 0,
        digits: 0,
        from: 1,
        to: 1 + width(degree + 1 - least, coordinate),
        counted: 0,
        least,
        mask: 0,
        starts: 1,
    };
    search.search_ranges(start, &mut basis)
}

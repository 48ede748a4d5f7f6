// How many rows a lawful list has.
ghost use Rattle.std.specs.Prelude.{◌≡◌, length};
ghost use Rattle.definitions.specs.Ranking.{ranked};
ghost use Rattle.search.specs.Frame.{LawfulList};

use definitions::Selection;
use limits::LONGEST_ROW;
use search::frame::{Frame, Tally};
use search::walk;

// A search from the start that has room for one row counts every row that it meets.
pub fn count_rows(list: Selection) -> usize
    requires { LawfulList list }
    ensures { result ≡ length (ranked list) }
{
    let mut row: [u32; LONGEST_ROW] = [0; LONGEST_ROW];
    let frame = Frame {
        list: list,
        capacity: 1,
        last: None,
    };
    let none = Tally { kept: 0, count: 0 };
    let found = walk::visit(list.degree, 1, 0, &mut row, none, &frame);
    found.count
}

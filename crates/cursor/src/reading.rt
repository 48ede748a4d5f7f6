// Reading a ranked list to its end.
ghost use Rattle.std.specs.Prelude.{◌≡◌, ◌+◌, ◌<◌, ◌≤◌, length, get_or};
ghost use Rattle.definitions.specs.Ranking.{row_width};
ghost use Rattle.definitions.specs.declared.Position.TheVariants.{After};
ghost use Rattle.cursor.specs.Left.{start_of, OnList, Handed};

use definitions::{Position, Selection};
use page_rows::serve;
use row_places::width_of;

// Which list is read, and the position behind the rows that were handed out.
#[derive(Clone, Copy)]
pub struct Cursor {
    pub list: Selection,
    pub position: Position,
}

// What was handed out: how many rows, whether rows are left, and the cursor behind them.
// A flag beside the cursor: the cursor behind the last row is handed out too, and promised (docs/PROMISES.md).
#[derive(Clone, Copy)]
pub struct Portion {
    pub rows: usize,
    pub more: bool,
    pub next: Cursor,
}

// Before the first row of a list.
pub fn start(list: Selection) -> Cursor
    ensures { result ≡ start_of list }
{
    Cursor {
        list,
        position: Position::Start,
    }
}

// After the pair of the row at a place.
fn after_row(rows: &[u32], place: usize) -> Position
    requires { place + 1 < length rows.now }
    ensures { result ≡ After (get_or rows.now place 0) (get_or rows.now (place + 1) 0) }
{
    let p = rows[place];
    let q = rows[place + 1];
    Position::After(p, q)
}

// Writes the next rows over the front of `out`, as many as fit.
pub fn next(at: Cursor, out: &mut [u32]) -> Portion
    requires { OnList at × (row_width at.list ≤ length out.old) }
    ensures { Handed at out.old result out.new }
{
    let served = serve::fill(at.list, at.position, out);
    let rows = served.rows;
    if rows == 0 {
        return Portion {
            rows: 0,
            more: false,
            next: at,
        };
    }
    let behind = Cursor {
        list: at.list,
        position: after_row(out, (rows - 1) * width_of(at.list)),
    };
    Portion {
        rows,
        more: served.further,
        next: behind,
    }
}

// The next rows of a list, as many as fit.
ghost use Rattle.std.specs.Prelude.{◌≡◌, ◌*◌, ◌/◌, ◌≤◌, min, length};
ghost use Rattle.definitions.specs.Ranking.{row_width};
ghost use Rattle.cursor.specs.Left.{OnList};
ghost use Rattle.paged_rows.specs.Room.{step_room};
ghost use Rattle.listing_rows.specs.Taken.{HandedWithin};

use cursor::reading;
use cursor::reading::{Cursor, Portion};
use paged_rows::STEP_ROOM;

// How many rows fit: each takes `width` numbers, and with the line of its page so many bytes.
pub fn how_many(numbers: usize, width: usize, bytes: usize) -> usize
    requires { 1 ≤ width }
    ensures { result ≡ min (numbers / width) (bytes / step_room) }
{
    (numbers / width).min(bytes / STEP_ROOM)
}

// The next rows over the front of `rows`, at most so many.
pub fn take_rows(from: Cursor, rows: &mut [u32], most: usize, width: usize) -> Portion
    requires on_list { OnList from }
    requires width_value { width ≡ row_width from.list }
    requires le_most { 1 ≤ most }
    requires width_in_bounds { most * width ≤ length rows.old }
    ensures { HandedWithin from most rows.old result rows.new }
{
    let end = most * width;
    reading::next(from, &mut rows[..end])
}

// The next rows as a part: the cursor hands out as many as fit both slices, and all of them are put, so that none is kept back.
ghost use Rattle.std.specs.Prelude.{◌≡◌, ◌≤◌, length};
ghost use Rattle.definitions.specs.Ranking.{row_width};
ghost use Rattle.paged_rows.specs.Room.{step_room};
ghost use Rattle.listing_start.specs.Left.{OnWay};
ghost use Rattle.listing_parts.specs.Parts.{part_at, rows_after, text_after};

use crate::parts::Part;
use cursor::reading::Cursor;
use listing_rows::taking::{how_many, take_rows};
use listing_start::Printing;
use paged_rows::putting::put_rows;
use row_places::width_of;

// The next rows of a list, and the line of the one page of a list that has none.
pub(crate) fn next_rows(
    from: Cursor,
    size: u32,
    done: u32,
    rows: &mut [u32],
    text: &mut [u8],
) -> Part
    requires on_way { OnWay from size done }
    requires list_in_bounds { row_width from.list ≤ length rows.old }
    requires step_room_in_bounds { step_room ≤ length text.old }
    ensures value { result ≡ part_at (Printing.Rows from size done) rows.old text.old }
    ensures rows_after { rows.new ≡ rows_after (Printing.Rows from size done) rows.old text.old }
    ensures text_after { text.new ≡ text_after (Printing.Rows from size done) rows.old text.old }
{
    let width = width_of(from.list);
    let most = how_many(rows.len(), width, text.len());
    let portion = take_rows(from, rows, most, width);
    let count = portion.rows;
    if count == 0 {
        return Part {
            bytes: listing::put_page(text, 0, 1, 0, false),
            more: true,
            next: Printing::Total(done),
        };
    }
    let bytes = put_rows(text, rows, width, count, size, done, portion.more);
    let printed = done + count as u32;
    if portion.more {
        let behind = portion.next;
        return Part {
            bytes,
            more: true,
            next: Printing::Rows(behind, size, printed),
        };
    }
    Part {
        bytes,
        more: true,
        next: Printing::Total(printed),
    }
}

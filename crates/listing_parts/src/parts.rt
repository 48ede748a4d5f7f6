// The next part of the text: a line, or as many rows, with the lines of their pages, as fit.
ghost use Rattle.std.specs.Prelude.{◌≡◌, ◌≤◌, length};
ghost use Rattle.paged_rows.specs.Room.{step_room};
ghost use Rattle.listing_start.specs.Left.{Underway, row_room};
ghost use Rattle.listing_parts.specs.Parts.{part_at, rows_after, text_after};

use crate::rows::next_rows;
use cursor::reading;
use listing_start::Printing;

// A part that was put: its bytes, whether more is left, and what.
// No Option for the two: docs/PROMISES.md names both fields, and the theorem `Printed.next_tells` of `demands` is on `more`.
#[derive(Clone, Copy)]
pub struct Part {
    pub bytes: usize,
    pub more: bool,
    pub next: Printing,
}

// Puts the next part over the front of `text`. Its rows are read over the front of `rows`, and none is kept back for the next call, so each call
// may bring other slices. `rows` holds a row, and `text` one with the line of its page.
pub fn next(at: Printing, rows: &mut [u32], text: &mut [u8]) -> Part
    requires underway { Underway at }
    requires at_in_bounds { row_room at ≤ length rows.old }
    requires step_room_in_bounds { step_room ≤ length text.old }
    ensures value { result ≡ part_at at rows.old text.old }
    ensures rows_after { rows.new ≡ rows_after at rows.old text.old }
    ensures text_after { text.new ≡ text_after at rows.old text.old }
{
    match at {
        Printing::Refused(number) => Part {
            bytes: listing::put_refused(text, 0, number),
            more: false,
            next: Printing::Nothing,
        },
        Printing::Whole(list, size) => Part {
            bytes: listing::put_header(text, 0, list.degree, list.top),
            more: true,
            next: Printing::Rows(reading::start(list), size, 0),
        },
        Printing::Rows(from, size, done) => next_rows(from, size, done, rows, text),
        Printing::Total(count) => Part {
            bytes: listing::put_total(text, 0, count),
            more: false,
            next: Printing::Nothing,
        },
        Printing::Nothing => Part {
            bytes: 0,
            more: false,
            next: Printing::Nothing,
        },
    }
}

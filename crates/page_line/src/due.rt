// The line behind a row of a list that is printed row by row.
ghost use Rattle.std.specs.Prelude.{◌≡◌, ◌≤◌, ◌<◌};
ghost use Rattle.slice_laws.specs.Place.{placed, behind};
ghost use Rattle.page_line.specs.Due.{most_rows, due_text};

use crate::put_page;

// The line of a row's page, where the page or the list ends with this row; `done` rows stand before it.
pub fn put_due(out: &mut [u8], at: usize, size: u32, done: u32, further: bool) -> usize
    requires le_size { 1 ≤ size }
    requires done_lt_most_rows { done < most_rows }
    ensures value { result ≡ behind at (due_text size done further) out.old }
    ensures out_after { out.new ≡ placed at (due_text size done further) out.old }
{
    let row = done % size + 1;
    if further && row < size {
        return at;
    }
    put_page(out, at, done / size + 1, row, further)
}

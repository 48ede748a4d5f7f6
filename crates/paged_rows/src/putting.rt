// Rows put into a text one behind the other, with the lines of their pages.
ghost use Rattle.std.specs.Prelude.{◌≡◌, ◌+◌, ◌*◌, ◌≤◌, ◌<◌, length};
ghost use Rattle.definitions.specs.Number.{over};
ghost use Rattle.definitions.specs.Ranking.{longest_row};
ghost use Rattle.page_laws.specs.Rows.{rows_of};
ghost use Rattle.page_line.specs.Due.{most_rows};
ghost use Rattle.paged_rows.specs.Printed.{step_text, rows_text};
ghost use Rattle.paged_rows.specs.Room.{step_room};

use page_line::due::put_due;

// A row, and the line of its page where that ends.
fn put_step(text: &mut [u8], at: usize, row: &[u32], size: u32, done: u32, further: bool) -> usize
    requires step_room_in_bounds { at + step_room ≤ length text.old }
    requires row_len_bound { length row.now ≤ longest_row }
    requires le_size { 1 ≤ size }
    requires done_lt_most_rows { done < most_rows }
    ensures value { result ≡ at + length (step_text size done further row.now) }
    ensures text_after { text.new ≡ over at (step_text size done further row.now) text.old }
    ensures row_len_bound_2 { length (step_text size done further row.now) ≤ step_room }
{
    let end = row_text::put_row(text, at, row);
    put_due(text, end, size, done, further)
}

// The first rows of a slice, behind `done` rows printed before; `further` says that the list goes on behind them.
pub fn put_rows(
    text: &mut [u8],
    rows: &[u32],
    width: usize,
    count: usize,
    size: u32,
    done: u32,
    further: bool,
) -> usize
    requires width_le_longest_row { width ≤ longest_row }
    requires width_in_bounds { count * width ≤ length rows.now }
    requires le_size { 1 ≤ size }
    requires count_bound { done + count < most_rows }
    requires step_room_in_bounds { count * step_room ≤ length text.old }
    ensures value { result ≡ length (rows_text size done further (rows_of width count rows.now)) }
    ensures text_after { text.new ≡ over 0 (rows_text size done further (rows_of width count rows.now)) text.old }
{
    let mut at = 0;
    for i in 0..count {
        let from = i * width;
        let row = &rows[from..from + width];
        let more = i + 1 < count || further;
        at = put_step(text, at, row, size, done + i as u32, more);
    }
    at
}

// The text of a row: its numbers with single spaces between, and a newline.
ghost use Rattle.std.specs.Prelude.{◌≡◌, ◌+◌, ◌≤◌, leb, length};
ghost use Rattle.definitions.specs.Number.{over};
ghost use Rattle.definitions.specs.Listing.{row_text};
ghost use Rattle.row_text.specs.Rows.{gap};

use decimal_text::write::{digits, write_decimal};

// Whether a row's text fits into so many bytes.
pub fn row_fits(row: &[u32], room: usize) -> bool
    ensures { result ≡ leb (length (row_text row.now)) room }
{
    if row.is_empty() {
        return room > 0;
    }
    let mut left = room;
    for n in row {
        let k = digits(*n) + 1;
        if left < k {
            return false;
        }
        left -= k;
    }
    true
}

// What stands before number i of a row: a space, and nothing before the first.
pub fn write_gap(out: &mut [u8], at: usize, i: usize) -> usize
    requires { at + length (gap i) ≤ length out.old }
    ensures value { result ≡ at + length (gap i) }
    ensures out_after { out.new ≡ over at (gap i) out.old }
{
    if i == 0 {
        return at;
    }
    out[at] = b' ';
    at + 1
}

// The numbers of a row and a newline.
pub fn write_row(out: &mut [u8], at: usize, row: &[u32]) -> usize
    requires { at + length (row_text row.now) ≤ length out.old }
    ensures value { result ≡ at + length (row_text row.now) }
    ensures out_after { out.new ≡ over at (row_text row.now) out.old }
{
    let mut place = at;
    for (i, n) in row.iter().enumerate() {
        let start = write_gap(out, place, i);
        place = write_decimal(out, start, *n);
    }
    out[place] = b'\n';
    place + 1
}

// The text of a row, put at a place of a buffer: where it fits, the answer is the place behind it; where it does not, nothing is written and
// the answer is the place itself.
#![tactic(auto)]

ghost use Rattle.std.specs.Prelude.{◌≡◌};
ghost use Rattle.definitions.specs.Listing.{row_text};
ghost use Rattle.slice_laws.specs.Place.{placed, behind};

mod write;

use write::{row_fits, write_row};

// The numbers of a row, of any length.
pub fn put_row(out: &mut [u8], at: usize, row: &[u32]) -> usize
    ensures value { result ≡ behind at (row_text row.now) out.old }
    ensures out_after { out.new ≡ placed at (row_text row.now) out.old }
{
    if at <= out.len() && row_fits(row, out.len() - at) {
        write_row(out, at, row)
    } else {
        at
    }
}

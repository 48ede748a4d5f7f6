// The lines above a list, below it and in its place, put at a place of a buffer: where a line fits, the answer is the place behind it; where it
// does not, nothing is written and the answer is the place itself. Customers call them by `listing`.
#![tactic(auto)]

ghost use Rattle.std.specs.Prelude.{◌≡◌};
ghost use Rattle.definitions.specs.Listing.{header_text, total_text, refused_text};
ghost use Rattle.slice_laws.specs.Place.{placed, behind};

use text::lines::{put_line, put_long_line};

// The line above a list.
pub fn put_header(out: &mut [u8], at: usize, degree: u32, top: u32) -> usize
    ensures value { result ≡ behind at (header_text degree top) out.old }
    ensures out_after { out.new ≡ placed at (header_text degree top) out.old }
{
    put_long_line(out, at, b"degree ", degree, b" top ", top, b"\n")
}

// The line below a list: the sum of all rows.
pub fn put_total(out: &mut [u8], at: usize, rows: u32) -> usize
    ensures value { result ≡ behind at (total_text rows) out.old }
    ensures out_after { out.new ≡ placed at (total_text rows) out.old }
{
    put_line(out, at, b"total ", rows)
}

// The line that is printed in place of a list.
pub fn put_refused(out: &mut [u8], at: usize, number: u32) -> usize
    ensures value { result ≡ behind at (refused_text number) out.old }
    ensures out_after { out.new ≡ placed at (refused_text number) out.old }
{
    put_line(out, at, b"refused ", number)
}

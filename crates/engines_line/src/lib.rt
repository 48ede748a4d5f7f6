// The line that has the t-value of a pair by both engines. It is put at a place of a buffer: where it fits, the answer is the place behind it; where it does
// not, nothing is written and the answer is the place itself. Customers call nothing here.
#![tactic(auto)]

ghost use Rattle.std.specs.Prelude.{◌≡◌};
ghost use Rattle.definitions.specs.Recount.{both_text};
ghost use Rattle.slice_laws.specs.Place.{placed, behind};

use text::lines::put_long_line;

// Both t-values.
pub fn put_both(out: &mut [u8], at: usize, quick: u32, count: u32) -> usize
    ensures value { result ≡ behind at (both_text quick count) out.old }
    ensures out_after { out.new ≡ placed at (both_text quick count) out.old }
{
    put_long_line(out, at, b"quick ", quick, b" count ", count, b"\n")
}

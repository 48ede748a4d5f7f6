// The text of a number, put at a place of a buffer: where it fits, the answer is the place behind it; where it does not, nothing is written
// and the answer is the place itself.
#![tactic(auto)]

ghost use Rattle.std.specs.Prelude.{◌≡◌};
ghost use Rattle.definitions.specs.Listing.{decimal};
ghost use Rattle.slice_laws.specs.Place.{placed, behind};

pub mod write; // texts and digits over what stands in a buffer

use write::{digits, fits, write_decimal};

// The decimal digits of n.
pub fn put_decimal(out: &mut [u8], at: usize, n: u32) -> usize
    ensures value { result ≡ behind at (decimal n) out.old }
    ensures out_after { out.new ≡ placed at (decimal n) out.old }
{
    if fits(out, at, digits(n)) {
        write_decimal(out, at, n)
    } else {
        at
    }
}

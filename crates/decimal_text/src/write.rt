// Texts and digits over what stands in a buffer, and whether they fit. What writes asks that they fit, and answers the place behind them.
ghost use Rattle.std.specs.Prelude.{◌≡◌, ◌+◌, ◌≤◌, leb, length};
ghost use Rattle.definitions.specs.Number.{over};
ghost use Rattle.definitions.specs.Listing.{decimal};

use itoa::Buffer;

// Whether n bytes fit behind a place.
pub fn fits(out: &[u8], at: usize, n: usize) -> bool
    ensures { result ≡ leb (at + n) (length out.now) }
{
    at <= out.len() && n <= out.len() - at
}

// A text.
pub fn write_text(out: &mut [u8], at: usize, text: &[u8]) -> usize
    requires { at + length text.now ≤ length out.old }
    ensures value { result ≡ at + length text.now }
    ensures out_after { out.new ≡ over at text.now out.old }
{
    let end = at + text.len();
    out[at..end].copy_from_slice(text);
    end
}

// How many decimal digits n has.
pub fn digits(n: u32) -> usize
    ensures { result ≡ length (decimal n) }
{
    Buffer::new().format(n).len()
}

// The decimal digits of n.
pub fn write_decimal(out: &mut [u8], at: usize, n: u32) -> usize
    requires { at + length (decimal n) ≤ length out.old }
    ensures value { result ≡ at + length (decimal n) }
    ensures out_after { out.new ≡ over at (decimal n) out.old }
{
    write_text(out, at, Buffer::new().format(n).as_bytes())
}

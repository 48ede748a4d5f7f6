// Numbers in bytes, big-endian, written over a buffer. Customers call nothing here.
// The buffer with a place, and no part of it: parts are promised as written `over` the whole buffer, one behind the other.
#![tactic(auto)]

ghost use Rattle.std.specs.Prelude.{◌≡◌, ℕ, ◌+◌, ◌<◌, ◌≤◌, length, get_or};
ghost use Rattle.definitions.specs.Number.{over};
ghost use Rattle.definitions.specs.Writing.{bytes_of};

// A number in the `width` bytes at a place, the last byte first.
pub fn write_number(file: &mut [u8], at: usize, width: usize, n: u32)
    requires { at + width ≤ length file.old }
    ensures { file.new ≡ over at (bytes_of width n) file.old }
{
    let mut rest = n;
    // By index: backwards, after `iter_mut().rev()`, a proof knows how many bytes were written and not which.
    for k in (0..width).rev() {
        file[at + k] = (rest % 256) as u8;
        rest /= 256;
    }
}

// Numbers at a place, a byte each.
pub fn write_bytes(file: &mut [u8], at: usize, numbers: &[u32])
    requires n_in_bounds { at + length numbers.now ≤ length file.old }
    requires by_index { (k : ℕ) → k < length numbers.now → get_or numbers.now k 0 < 256 }
    ensures { file.new ≡ over at numbers.now file.old }
{
    for (k, number) in numbers.iter().enumerate() {
        file[at + k] = *number as u8;
    }
}

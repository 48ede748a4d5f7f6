// Numbers in bytes, big-endian. No byte is read that is not there.
ghost use Rattle.std.specs.Prelude.{◌≡◌, ℕ, ◌+◌, ◌*◌, ◌^◌, ◌<◌, ◌≤◌, ltb, length};
ghost use Rattle.definitions.specs.Number.{every};
ghost use Rattle.definitions.specs.Catalogue.{byte_at, number_at};
ghost use Rattle.catalogue_laws.specs.Sizes.{widest};

pub fn byte(s: &[u8], i: usize) -> u32
    requires { i < length s.now }
    ensures { (result ≡ byte_at s.now i) × (result < 256) }
{
    u32::from(s[i])
}

// The number in the `width` bytes at a place.
pub fn number(s: &[u8], at: usize, width: usize) -> u32
    requires { (width ≤ widest) × (at + width ≤ length s.now) }
    ensures { (result ≡ number_at width s.now at) × (result < 2 ^ (8 * width)) }
{
    let mut n: u32 = 0;
    for k in 0..width {
        n = n * 256 + byte(s, at + k);
    }
    n
}

// Each of the n numbers of `width` bytes at `at` is below `bound`.
pub fn numbers_below(s: &[u8], at: usize, n: usize, width: usize, bound: u32) -> bool
    requires { (width ≤ widest) × (at + n * width ≤ length s.now) }
    ensures { result ≡ every n (λ (k : ℕ). ltb (number_at width s.now (at + k * width)) bound) }
{
    (0..n).all(|k| number(s, at + k * width, width) < bound)
}

// Each of the n bytes at `at` is below `bound`. A loop, since `all` over so short a range costs more than the bytes that it asks of.
pub fn bytes_below(s: &[u8], at: usize, n: usize, bound: u32) -> bool
    requires { at + n ≤ length s.now }
    ensures { result ≡ every n (λ (k : ℕ). ltb (byte_at s.now (at + k)) bound) }
{
    for k in 0..n {
        if byte(s, at + k) >= bound {
            return false;
        }
    }
    true
}

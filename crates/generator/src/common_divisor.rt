// The greatest common divisor, by Euclid's algorithm.
ghost use Rattle.std.specs.Prelude.{◌≡◌};
ghost use Rattle.definitions.specs.Number.{gcd};

// The remainders fall until one is 0; the one before it is the greatest common divisor.
pub fn gcd_of(a: u32, b: u32) -> u32
    ensures { result ≡ gcd a b }
{
    let mut large = a;
    let mut small = b;
    while small != 0 {
        let rest = large % small;
        large = small;
        small = rest;
    }
    large
}

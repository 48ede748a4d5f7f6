// The prime divisors of 2^m - 1, for each degree m that the library covers.
ghost use Rattle.std.specs.Prelude.{◌≡◌, ℕ, ◌<◌, get_or};
ghost use Rattle.number_laws.specs.Bounds.{LawfulDegree};
ghost use Rattle.order_laws.specs.Table.{divisors_of, places};

// As many places as a degree has divisors at most.
pub const PLACES: usize = 4;

const DEGREES: usize = (limits::LARGEST_DEGREE - limits::LEAST_DEGREE) as usize + 1;

// So many places for each degree from the least on, with 0 behind the divisors.
const DIVISORS: [[u32; PLACES]; DEGREES] = [
    [3, 0, 0, 0],
    [7, 0, 0, 0],
    [3, 5, 0, 0],
    [31, 0, 0, 0],
    [3, 7, 0, 0],
    [127, 0, 0, 0],
    [3, 5, 17, 0],
    [7, 73, 0, 0],
    [3, 11, 31, 0],
    [23, 89, 0, 0],
    [3, 5, 7, 13],
    [8191, 0, 0, 0],
    [3, 43, 127, 0],
    [7, 31, 151, 0],
    [3, 5, 17, 257],
];

// The prime divisors of 2^m - 1; 0 behind the last. The table is copied once here, where each index into it would copy it again.
pub fn divisors_of(m: u32) -> [u32; PLACES]
    requires { LawfulDegree m }
    ensures { (i : ℕ) → i < places → get_or result i 0 ≡ get_or (divisors_of m) i 0 }
{
    DIVISORS[(m - limits::LEAST_DEGREE) as usize]
}

// What the library covers: its degrees, its dimensions, its top dimensions and its floors. These bounds stand nowhere else in the code.
#![tactic(auto)]

ghost use Rattle.std.specs.Prelude.{◌≡◌, ◌&&◌, leb};
ghost use Rattle.definitions.specs.Calls.{counted_degree};
ghost use Rattle.definitions.specs.Generator.{lawful_degree, lawful_floor};
ghost use Rattle.definitions.specs.Ranking.{lawful_top, lawful_dimension};

pub const LEAST_DEGREE: u32 = 2;

pub const LARGEST_DEGREE: u32 = 16;

// The largest degree of the plain counter.
pub const LARGEST_COUNTED: u32 = 8;

pub const LEAST_TOP: u32 = 3;

pub const LARGEST_TOP: u32 = 8;

pub const LEAST_DIMENSION: u32 = 1;

pub const LARGEST_FLOOR: u32 = 32;

// The most coordinates that a point has here: Δ takes as many as the degree.
pub const COORDINATES: usize = LARGEST_DEGREE as usize;

// The numbers of the longest row: p, q, the step, the t-values up to the largest top dimension and Δ.
pub const LONGEST_ROW: usize = LARGEST_TOP as usize + 2;

// From `least` to `most`.
pub fn between(x: u32, least: u32, most: u32) -> bool
    ensures { result ≡ (leb least x && leb x most) }
{
    if x < least {
        return false;
    }
    x <= most
}

pub fn is_lawful_degree(degree: u32) -> bool
    ensures { result ≡ lawful_degree degree }
{
    between(degree, LEAST_DEGREE, LARGEST_DEGREE)
}

pub fn is_counted_degree(degree: u32) -> bool
    ensures { result ≡ counted_degree degree }
{
    between(degree, LEAST_DEGREE, LARGEST_COUNTED)
}

pub fn is_lawful_top(top: u32) -> bool
    ensures { result ≡ lawful_top top }
{
    between(top, LEAST_TOP, LARGEST_TOP)
}

pub fn is_lawful_floor(floor: u32) -> bool
    ensures { result ≡ lawful_floor floor }
{
    floor <= LARGEST_FLOOR
}

// The dimension of a single t-value.
pub fn is_lawful_dimension(dimension: u32) -> bool
    ensures { result ≡ lawful_dimension dimension }
{
    between(dimension, LEAST_DIMENSION, LARGEST_TOP)
}

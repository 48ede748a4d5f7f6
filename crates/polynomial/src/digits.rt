// The digits of a polynomial: its degree, their parity, and the leading term of a degree.
ghost use Rattle.std.specs.Prelude.{◌≡◌, ◌%◌, ◌^◌, ◌<◌};
ghost use Rattle.std.specs.Int.Count.{ones};
ghost use Rattle.definitions.specs.Polynomial.{degree};
ghost use Rattle.number_laws.specs.Bounds.{LawfulDegree};

// The degree of a polynomial other than 0: the place of its highest digit.
pub fn degree_of(a: u32) -> u32
    requires { 0 < a }
    ensures { (result ≡ degree a) × (result < 32) }
{
    31 - u32::leading_zeros(a)
}

// The parity of a digit row.
pub fn parity(row: u32) -> u32
    ensures { result ≡ ones row % 2 }
{
    u32::count_ones(row) % 2
}

// The leading term of a polynomial of degree m.
pub fn leading_term(m: u32) -> u32
    requires { LawfulDegree m }
    ensures { result ≡ 2 ^ m }
{
    1 << m
}

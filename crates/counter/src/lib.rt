// The t-value by counting, as the definition has it, for degrees up to 8: all 2^m points stand in an array, and for every shape, a way to share m - t
// digits among the coordinates, `box_counts` counts the points in each box.
#![tactic(auto)]

ghost use Rattle.std.specs.Prelude.{◌≡◌, ◌-◌};
ghost use Rattle.definitions.specs.Number.{first};
ghost use Rattle.definitions.specs.Points.{leading, coordinate};
ghost use Rattle.definitions.specs.Net.{every_share};
ghost use Rattle.definitions.specs.Calls.{counted};
ghost use Rattle.number_laws.specs.Bounds.{CountedDegree, LawfulDimension};
ghost use Rattle.fraction_laws.specs.WellFormed.{WellFormed};
ghost use Rattle.counting_laws.specs.Shapes.{every_shape};
ghost use Rattle.counting_laws.specs.Points.{Digits, Built, Begun, fills_evenly};

use definitions::Refusal;
use polynomial::digits;
use polynomial::residues::Residues;
use word_tables::word;

// The t-value of a pair, or refusal 1, for a degree that is not 2 to 8, 2 or 3.
pub fn count_t_value(degree: u32, p: u32, q: u32, dimension: u32) -> Result<u32, Refusal>
    ensures { result ≡ counted degree p q dimension }
{
    if !limits::is_counted_degree(degree) {
        return Err(Refusal::WrongDegree);
    }
    if !limits::is_lawful_dimension(dimension) {
        return Err(Refusal::WrongDimension);
    }
    if !verdicts::is_well_formed(degree, p, q) {
        return Err(Refusal::IllFormedPair);
    }
    let points = build_points(degree, p, q);
    Ok(smallest_t(&points, dimension as usize, degree))
}

// All 2^m points, 256 at most with eight coordinates each: coordinate j of the point h stands at j 2^m + h.
fn build_points(m: u32, p: u32, q: u32) -> [u32; 2048]
    requires counted_degree { CountedDegree m }
    requires well_formed { WellFormed m p q }
    ensures { Built m p q result }
{
    let all = digits::leading_term(m);
    let mut points = [0u32; 2048];
    for i in 0..8 * all {
        points[i as usize] = coordinate_digits(m, p, q, i % all, i / all);
    }
    points
}

// Coordinate j of the point h, the first m digits of h q^j mod p over p, as a number with the first digit highest.
fn coordinate_digits(m: u32, p: u32, q: u32, h: u32, j: u32) -> u32
    requires counted_degree { CountedDegree m }
    requires well_formed { WellFormed m p q }
    ensures { result ≡ leading p m (coordinate p q j h) }
{
    let residues = Residues::modulo(m, p);
    let y = residues.product(h, residues.power(q, j));
    word::word_of(m, p, y) >> (32 - m)
}

// The smallest t such that, however m - t digits are shared among s coordinates, each box has exactly 2^t points. For t = m the one box has all.
fn smallest_t(points: &[u32; 2048], s: usize, m: u32) -> u32
    requires counted_degree { CountedDegree m }
    requires digits { Digits m points.now }
    requires lawful_dimension { LawfulDimension s }
    ensures { result ≡ first m 0 (λ t. every_share s (m - t) (fills_evenly m points.now t)) }
{
    for t in 0..m {
        if every_shape(points, s, 0, m - t, [0u32; 8], m, t) {
            return t;
        }
    }
    m
}

// Whether the points fill evenly every shape that begins as this one does, up to coordinate j, and shares `left` digits among the coordinates from j
// on: coordinate j takes d of them, for each d, and the coordinates behind it share the others; the last one takes all.
fn every_shape(
    points: &[u32; 2048],
    s: usize,
    j: usize,
    left: u32,
    shape: [u32; 8],
    m: u32,
    t: u32,
) -> bool
    requires { Begun m s t points.now shape j left }
    ensures { result ≡ every_shape s (fills_evenly m points.now t) shape j left }
{
    if j + 1 == s {
        let mut whole = shape;
        whole[j] = left;
        return box_counts::fills_evenly(points, &whole, m, s, t);
    }
    for d in 0..=left {
        let mut next = shape;
        next[j] = d;
        if !every_shape(points, s, j + 1, left - d, next, m, t) {
            return false;
        }
    }
    true
}

// t-values of one pair, each from the one before; the digit rows are computed once, one coordinate more for each dimension.
ghost use Rattle.std.specs.Prelude.{◌≡◌, ◌-◌, ◌^◌, ◌≤◌};
ghost use Rattle.definitions.specs.Net.{t_value};
ghost use Rattle.definitions.specs.Ranking.{largest_top};
ghost use Rattle.number_laws.specs.Bounds.{LawfulDegree, LawfulDimension};
ghost use Rattle.polynomial_laws.specs.Degree.{HasDegree};
ghost use Rattle.digit_rows.specs.Table.{Tabled};
ghost use Rattle.net.specs.Bound.{Stop};

use digit_rows::table::{TABLE, add_coordinate, first_coordinate};
use least_weight::weight::least_weight;
use polynomial::residues::Residues;

// t(s), where `before` is t(s - 1) and the table has the digit rows of s - 1 coordinates; it gets those of one more.
pub fn next_t(
    degree: u32,
    p: u32,
    q: u32,
    s: usize,
    before: u32,
    table: &mut [u32; TABLE],
    bound: u32,
) -> u32
    requires lawful_degree { LawfulDegree degree × HasDegree p degree }
    requires stop { Stop degree p q bound }
    requires tabled { Tabled p q (2 ^ degree) degree (s - 1) table.old }
    requires le_s { (2 ≤ s) × (s ≤ largest_top) }
    requires before_value { before ≡ t_value degree p q (s - 1) }
    ensures { (result ≡ t_value degree p q s) × Tabled p q (2 ^ degree) degree s table.new }
{
    add_coordinate(
        Residues::modulo(degree, p),
        q,
        degree as usize,
        s - 1,
        table,
    );
    let least = least_weight((s - 1) as u32, degree + 1 - before, degree, bound, table);
    degree + 1 - least
}

// t(s), from t(1) = 0 on.
pub fn t_at(degree: u32, p: u32, q: u32, s: usize, bound: u32) -> u32
    requires lawful_degree { LawfulDegree degree × HasDegree p degree }
    requires stop { Stop degree p q bound }
    requires lawful_dimension { LawfulDimension s }
    ensures { result ≡ t_value degree p q s }
{
    let mut table = first_coordinate();
    let mut value = 0;
    for dimension in 2..=s {
        value = next_t(degree, p, q, dimension, value, &mut table, bound);
    }
    value
}

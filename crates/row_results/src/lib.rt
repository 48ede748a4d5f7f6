// A row of a degree's body as a struct that C takes by value.
#![tactic(auto)]

ghost use Rattle.std.specs.Prelude.{◌≡◌, cond, eqb, Some};
ghost use Rattle.definitions.specs.Answers.{next_row_values};
ghost use Rattle.row_results.specs.Results.{page_row, row_result};

use definitions::Row;

// A row of a body: how many numbers it has, 0 at the end; the place behind it; its numbers as a page has them, and 0 behind them.
#[repr(C)]
#[derive(Clone, Copy)]
pub struct FenyurkaRow {
    pub count: usize,
    pub next: usize,
    pub numbers: [u32; limits::LONGEST_ROW],
}

// The number behind t(s) in a row with Δ: Δ where s is T, else t(s + 1), which is given as `t`.
pub fn behind_t(t: u32, delta: u32, top: u32, s: u32) -> u32
    ensures { result ≡ cond (eqb top s) delta t }
{
    if top == s { delta } else { t }
}

// The numbers of a row as a page has them, and 0 behind them.
pub fn page_row(found: Row, top: u32, gaps: bool) -> [u32; limits::LONGEST_ROW]
    ensures { result ≡ page_row (next_row_values (Some found)) top gaps }
{
    if !gaps {
        return [
            found.p, found.q, found.step, found.t3, found.t4, found.t5, found.t6, found.t7,
            found.t8, 0,
        ];
    }
    let delta = found.delta;
    [
        found.p,
        found.q,
        found.step,
        found.t3,
        behind_t(found.t4, delta, top, 3),
        behind_t(found.t5, delta, top, 4),
        behind_t(found.t6, delta, top, 5),
        behind_t(found.t7, delta, top, 6),
        behind_t(found.t8, delta, top, 7),
        behind_t(0, delta, top, 8),
    ]
}

// No `From`: T, the kind and the place come beside the row.
pub fn row(answer: Option<Row>, top: u32, gaps: bool, next: usize) -> FenyurkaRow
    ensures { result ≡ row_result (next_row_values answer) top gaps next }
{
    match answer {
        Some(found) => FenyurkaRow {
            count: top as usize + 1 + gaps as usize,
            next,
            numbers: page_row(found, top, gaps),
        },
        None => FenyurkaRow {
            count: 0,
            next,
            numbers: [0; limits::LONGEST_ROW],
        },
    }
}

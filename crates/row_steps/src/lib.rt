// The steps of rows that a search has kept, written when it is over. Customers call nothing here.
#![tactic(auto)]

ghost use Rattle.std.specs.Prelude.{◌≡◌, ◌*◌, ◌≤◌, ◌<◌, length};
ghost use Rattle.number_laws.specs.Bounds.{LawfulDegree};
ghost use Rattle.page_laws.specs.Rows.{rows_of};
ghost use Rattle.ranking_laws.specs.Steps.{HaveSteps};
ghost use Rattle.row_steps.specs.Written.{written};

use giant_steps::step_of;
use row_places::STEP;

// Writes the step of each of the first n rows.
pub fn write_steps(m: u32, width: usize, n: usize, out: &mut [u32])
    requires lawful_degree { LawfulDegree m × (2 < width) × (n * width ≤ length out.old) }
    requires have_steps { HaveSteps m (rows_of width n out.old) }
    ensures { out.new ≡ written m width n out.old }
{
    // By index: of a slice that was written through `chunks_exact_mut` the library tells the length alone.
    for i in 0..n {
        let at = i * width;
        out[at + STEP] = step_of(m, out[at], out[at + 1]);
    }
}

// The slot of a row among the rows at the front of a lent slice, which stand in order. Customers call nothing here.
#![tactic(auto)]

ghost use Rattle.std.specs.Prelude.{◌≡◌, ◌*◌, ◌<◌, ◌≤◌, length};
ghost use Rattle.definitions.specs.Ranking.{ranks_from, row_key};
ghost use Rattle.page_laws.specs.Slot.{slot, Ordered};
ghost use Rattle.page_laws.specs.Rows.{rows_of};

use row_order::stands_before;

// The slot of `row` among the `kept` rows at the front of `out`, by halves.
pub fn find_slot(out: &[u32], kept: usize, row: &[u32]) -> usize
    requires { (ranks_from < length row.now) × (kept * length row.now ≤ length out.now) × Ordered row_key (rows_of (length row.now) kept out.now) }
    ensures { result ≡ slot row_key row.now (rows_of (length row.now) kept out.now) }
{
    let width = row.len();
    let mut low: usize = 0;
    let mut high = kept;
    // By hand: the library searches a slice by its elements, and here each has `width` numbers, a width known at run time.
    while low < high {
        let mid = low + (high - low) / 2;
        let from = mid * width;
        if stands_before(row, &out[from..from + width]) {
            high = mid;
        } else {
            low = mid + 1;
        }
    }
    low
}

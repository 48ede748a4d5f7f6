// Putting a row in among the rows at the front of a lent slice.
ghost use Rattle.std.specs.Prelude.{◌≡◌, ◌+◌, ◌*◌, ◌≤◌, length};
ghost use Rattle.definitions.specs.Ranking.{row_key};
ghost use Rattle.page_laws.specs.Slot.{slot};
ghost use Rattle.page_laws.specs.Rows.{rows_of, spliced, inserted, Kept};

// Puts `row` in at `from`, and moves what stands there up to `to` behind it.
fn splice(out: &mut [u32], from: usize, to: usize, row: &[u32])
    requires { (from ≤ to) × (to + length row.now ≤ length out.old) }
    ensures { out.new ≡ spliced from to row.now out.old }
{
    let behind = from + row.len();
    out.copy_within(from..to, behind);
    out[from..behind].copy_from_slice(row);
}

// Puts `row` in its slot among the `kept` rows at the front of `out`, of which at most `capacity` stay, and answers how many rows are kept now.
pub fn insert_row(out: &mut [u32], kept: usize, capacity: usize, at: usize, row: &[u32]) -> usize
    requires width_in_bounds { (kept ≤ capacity) × (capacity * length row.now ≤ length out.old) }
    requires at_value { at ≡ slot row_key row.now (rows_of (length row.now) kept out.old) }
    ensures { ◌≡◌ {A = Kept} (record { out = out.new; n = result })
        (inserted row_key (length row.now) capacity row.now (record { out = out.old; n = kept })) }
{
    let width = row.len();
    if kept < capacity {
        splice(out, at * width, kept * width, row);
        return kept + 1;
    }
    if at < kept {
        splice(out, at * width, (kept - 1) * width, row);
    }
    kept
}

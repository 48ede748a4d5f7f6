// What becomes of a pair that the walk meets. Rows are kept without their steps: no key has a step in it, and few of the rows met are kept to the end.
ghost use Rattle.std.specs.Prelude.{◌≡◌, true, ◌∷◌, [], length};
ghost use Rattle.definitions.specs.Generator.{linear_quotients, accepted};
ghost use Rattle.definitions.specs.Pages.{above};
ghost use Rattle.definitions.specs.Ranking.{row_key};
ghost use Rattle.fraction_laws.specs.WellFormed.{WellFormed};
ghost use Rattle.page_laws.specs.Rows.{Kept, inserted};
ghost use Rattle.page_laws.specs.Search.{Search};
ghost use Rattle.ranking_laws.specs.Steps.{met_begun};
ghost use Rattle.search.specs.Frame.{width_of, cut_from, state_of, offers, offer, Framed, Keeping, Searching};
ghost use Rattle.search.specs.Standing.{row_in};

use crate::frame::{Frame, Tally};
use crate::rank;
use crate::rank::Standing;
use full_orders::primitive::have_full_orders;
use insertion::rows::insert_row;
use limits::LONGEST_ROW;
use orders::floors::reaches_floor;
use row_order::stands_after;
use row_places::width_of;
use row_slot::find_slot;

// Whether a row stands above the cut.
fn is_above(row: &[u32], f: &Frame) -> bool
    requires { Framed f.now × (length row.now ≡ width_of f.now) }
    ensures { result ≡ above (cut_from f.now) (row_key row.now) }
{
    match f.last {
        None => true,
        Some(last) => stands_after(row, &last[..row.len()]),
    }
}

// Puts a row in its slot, where it fits, and answers how many rows are kept.
fn keep_row(out: &mut [u32], n: usize, f: &Frame, row: &[u32]) -> usize
    requires { Keeping f.now n out.old × (length row.now ≡ width_of f.now) }
    ensures { ◌≡◌ {A = Kept} (record { out = out.new; n = result })
        (inserted row_key (width_of f.now) f.now.capacity row.now (record { out = out.old; n = n })) }
{
    let at = find_slot(out, n, row);
    insert_row(out, n, f.capacity, at, row)
}

// Offers a row of which all is known but the step.
fn offer_known(out: &mut [u32], t: Tally, f: &Frame, row: &[u32]) -> Tally
    requires { Searching f.now 1 (state_of out.old t) × (length row.now ≡ width_of f.now) }
    ensures { ◌≡◌ {A = Search} (state_of out.new result)
        (offer f.now row.now (state_of out.old t)) }
{
    if !is_above(row, f) {
        return t;
    }
    Tally {
        kept: keep_row(out, t.kept, f, row),
        count: t.count + 1,
    }
}

// Offers the row of an accepted pair.
fn offer_row(p: u32, q: u32, out: &mut [u32], t: Tally, f: &Frame) -> Tally
    requires searching { Searching f.now 1 (state_of out.old t) }
    requires well_formed { WellFormed f.now.list.degree p q }
    requires q_value { accepted f.now.list.degree p q ≡ true }
    ensures { ◌≡◌ {A = Search} (state_of out.new result)
        (offer f.now (row_in f.now p q) (state_of out.old t)) }
{
    let mut numbers: [u32; LONGEST_ROW] = [0; LONGEST_ROW];
    match rank::weigh(p, q, out, t, f, &mut numbers) {
        Standing::Low => t,
        Standing::High => Tally {
            kept: t.kept,
            count: t.count + 1,
        },
        Standing::Open => {
            rank::write_delta(f.list, p, q, &mut numbers);
            offer_known(out, t, f, &numbers[..width_of(f.list)])
        }
    }
}

// Offers the row of a pair of the tree, where the pair is accepted at the list's floor. It is not put into the walk, whose frame stands on the stack
// once for each level.
#[inline(never)]
pub fn offer_pair(p: u32, q: u32, out: &mut [u32], t: Tally, f: &Frame) -> Tally
    requires searching { Searching f.now 1 (state_of out.old t) }
    requires well_formed { WellFormed f.now.list.degree p q }
    requires q_value { linear_quotients p q ≡ true }
    ensures { ◌≡◌ {A = Search} (state_of out.new result)
        (offers f.now (met_begun f.now.list (record { p = p; q = q } ∷ [])) (state_of out.old t)) }
{
    let list = f.list;
    let m = list.degree;
    if !have_full_orders(m, p, q) {
        return t;
    }
    if !reaches_floor(m, list.floor, p, q) {
        return t;
    }
    offer_row(p, q, out, t, f)
}

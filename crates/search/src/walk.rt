// The walk down the tree of pairs, one quotient at a time. The tree is never held: only the way down to the pair at hand is.
ghost use Rattle.std.specs.Prelude.{◌≡◌};
ghost use Rattle.definitions.specs.Generator.{pairs_below};
ghost use Rattle.page_laws.specs.Search.{Search};
ghost use Rattle.ranking_laws.specs.Steps.{met_begun};
ghost use Rattle.search.specs.Frame.{state_of, offers};
ghost use Rattle.search.specs.Walk.{Ready};

use crate::frame::{Frame, Tally};
use crate::offer;
use fractions::tree;

// Offers the rows of the accepted pairs that stand `left` levels below (p, q).
pub fn visit(left: u32, p: u32, q: u32, out: &mut [u32], t: Tally, f: &Frame) -> Tally
    requires { Ready left p q f.now (state_of out.old t) }
    ensures { ◌≡◌ {A = Search} (state_of out.new result)
        (offers f.now (met_begun f.now.list (pairs_below left (record { p = p; q = q }))) (state_of out.old t)) }
{
    if left == 0 {
        return offer::offer_pair(p, q, out, t, f);
    }
    let by_x = tree::child(2, p, q);
    let half = visit(left - 1, by_x, p, out, t, f);
    let by_x_plus_one = tree::child(3, p, q);
    visit(left - 1, by_x_plus_one, p, out, half, f)
}

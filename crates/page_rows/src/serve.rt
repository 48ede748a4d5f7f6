// The rows of a lawful list, from the start or after a pair of the list.
ghost use Rattle.std.specs.Prelude.{◌≤◌, length};
ghost use Rattle.definitions.specs.Ranking.{row_width, cut_of};
ghost use Rattle.ranking_laws.specs.Met.{rule_of};
ghost use Rattle.ranking_laws.specs.Reading.{ListedPosition};
ghost use Rattle.search.specs.Frame.{LawfulList, Lent, cut_after};
ghost use Rattle.page_rows.specs.Serve.{Filled};

use definitions::{Page, Position, Selection};
use limits::LONGEST_ROW;
use row_places::width_of;
use row_steps::write_steps;
use search::frame::{Frame, Tally};
use search::{rank, walk};

// Walks down the tree from its root, and then writes the steps of the rows kept. The slice must hold a row; it is the only room that the search needs.
fn search_all(list: Selection, last: Option<&[u32]>, out: &mut [u32]) -> Page
    requires { LawfulList list × Lent list last × (row_width list ≤ length out.old) }
    ensures { Filled list (cut_after (row_width list) last.entry) out.old result out.new }
{
    let width = width_of(list);
    let capacity = out.len() / width;
    let frame = Frame {
        list,
        capacity,
        last,
    };
    let none = Tally { kept: 0, count: 0 };
    let found = walk::visit(list.degree, 1, 0, out, none, &frame);
    write_steps(list.degree, width, found.kept, out);
    Page {
        rows: found.kept,
        further: capacity < found.count,
    }
}

// Writes the rows above the position over the front of `out`, as many as fit.
pub fn fill(list: Selection, position: Position, out: &mut [u32]) -> Page
    requires { LawfulList list × ListedPosition (rule_of list) position × (row_width list ≤ length out.old) }
    ensures { Filled list (cut_of list position) out.old result out.new }
{
    match position {
        Position::Start => search_all(list, None, out),
        Position::After(p, q) => {
            let mut last: [u32; LONGEST_ROW] = [0; LONGEST_ROW];
            rank::write_key(list, p, q, &mut last);
            search_all(list, Some(&last), out)
        }
    }
}

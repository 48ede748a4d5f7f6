// The body of a ranked list, written over a buffer: its rows, as many at a time as there are at hand. Customers call nothing here.
#![tactic(auto)]

ghost use Rattle.std.specs.Prelude.{◌≡◌, ◌+◌, ◌*◌, ◌≤◌, length};
ghost use Rattle.definitions.specs.Number.{over};
ghost use Rattle.definitions.specs.Ranking.{row_width, ranked};
ghost use Rattle.definitions.specs.Catalogue.{row_size};
ghost use Rattle.definitions.specs.Writing.{body_bytes, ranked_list};
ghost use Rattle.search.specs.Frame.{LawfulList};

use catalogue_bytes::sizes;
use catalogue_fields::rows::write_rows;
use cursor::reading;
use definitions::Selection;

// Writes the body at a place, and answers how many rows it has. `rows` takes the rows at hand.
// File and place, not a slice: the contract says what is written over the file there.
pub fn write_body(list: Selection, rows: &mut [u32], file: &mut [u8], at: usize) -> usize
    requires lawful_list { LawfulList list }
    requires list_in_bounds { row_width list ≤ length rows.old }
    requires gaps_in_bounds { at + length (ranked list) * row_size list.degree list.top list.gaps ≤ length file.old }
    ensures value { result ≡ length (ranked list) }
    ensures file_after { file.new ≡ over at (body_bytes (ranked_list list)) file.old }
{
    let size = sizes::row_size(list.degree, list.top, list.gaps);
    let mut here = reading::start(list);
    let mut done: usize = 0;
    loop {
        let portion = reading::next(here, rows);
        write_rows(file, at + done * size, list, rows, portion.rows);
        done += portion.rows;
        if !portion.more {
            return done;
        }
        here = portion.next;
    }
}

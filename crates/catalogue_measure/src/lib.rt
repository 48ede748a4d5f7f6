// Where the first body of a file of lawful entries lies, and how long the file is: each list is counted by a search of its own. Customers call
// nothing here.
#![tactic(auto)]

ghost use Rattle.std.specs.Prelude.{◌≡◌, ◌*◌, length};
ghost use Rattle.definitions.specs.Ranking.{ranked};
ghost use Rattle.definitions.specs.Catalogue.{row_size};
ghost use Rattle.definitions.specs.Writing.{entries_of};
ghost use Rattle.writing_laws.specs.RankedFile.{LawfulEntries};
ghost use Rattle.search.specs.Frame.{LawfulList};
ghost use Rattle.catalogue_measure.specs.Measure.{measure_of};

use catalogue_bytes::sizes;
use catalogue_entries::{count, entry};
use definitions::Selection;
use page_rows::count::count_rows;

// The place behind the entries, where the first body lies, and the length of the file.
#[derive(Clone, Copy)]
pub struct Measure {
    pub contents: usize,
    pub length: usize,
}

// The bytes of a list's body.
fn body_size(list: Selection) -> usize
    requires { LawfulList list }
    ensures { result ≡ length (ranked list) * row_size list.degree list.top list.gaps }
{
    count_rows(list) * sizes::row_size(list.degree, list.top, list.gaps)
}

pub fn take_measure(floor: u32, entries: &[u32]) -> Measure
    requires { LawfulEntries 0 (entries_of floor entries.now) }
    ensures { result ≡ measure_of (entries_of floor entries.now) }
{
    let n = count(entries);
    let mut contents = sizes::FIRST_ENTRY;
    let mut bodies = 0;
    for k in 0..n {
        let list = entry(floor, entries, k);
        contents += sizes::entry_size(list.degree);
        bodies += body_size(list);
    }
    Measure {
        contents,
        length: contents + bodies,
    }
}

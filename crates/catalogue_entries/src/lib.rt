// The entries that a catalogue is asked for, in a lent slice that comes unchecked: degree, T, degree, T, .., with T + 16 for T where the rows are to
// have Δ, each at the floor of the file. Customers call nothing here.
#![tactic(auto)]

ghost use Rattle.std.specs.Prelude.{◌≡◌, ℕ, ◌+◌, ◌<◌, length, get_or};
ghost use Rattle.definitions.specs.Writing.{entries_of};
ghost use Rattle.catalogue_entries.specs.Entries.{entry_in};

use definitions::Selection;

// How many entries there are, a last one without T included.
pub fn count(entries: &[u32]) -> usize
    ensures { (floor : ℕ) → result ≡ length (entries_of floor entries.now) }
{
    entries.len().div_ceil(2)
}

// What stands behind the degree at a place: T, or T + 16; where it is missing 0, which is no lawful T.
fn mark_behind(entries: &[u32], place: usize) -> u32
    requires { place < length entries.now }
    ensures { result ≡ get_or entries.now (place + 1) 0 }
{
    entries.get(place + 1).copied().unwrap_or(0)
}

// The entry at k.
#[tactic(auto, using(crate::specs::Entries::entry_within, crate::specs::Entries::entry_is))]
pub fn entry(floor: u32, entries: &[u32], k: usize) -> Selection
    requires { k < length (entries_of floor entries.now) }
    ensures { result ≡ entry_in floor entries.now k }
{
    let place = 2 * k;
    let mark = mark_behind(entries, place);
    Selection {
        degree: entries[place],
        top: marks::top_of(mark),
        floor,
        gaps: marks::has_gaps(mark),
    }
}

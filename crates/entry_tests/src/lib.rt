// The tests of the entries that a catalogue is asked for: lawful degrees, lawful T, and degrees that ascend. Customers call nothing here.
#![tactic(auto)]

ghost use Rattle.std.specs.Prelude.{◌≡◌};
ghost use Rattle.definitions.specs.Writing.{entries_of, ascending};
ghost use Rattle.entry_tests.specs.Tests.{lawful_of};

use catalogue_entries::{count, entry};

// Whether each degree is lawful, and whether each T is.
#[derive(Clone, Copy)]
pub struct Lawful {
    pub degrees: bool,
    pub tops: bool,
}

pub fn are_lawful(floor: u32, entries: &[u32]) -> Lawful
    ensures { result ≡ lawful_of (entries_of floor entries.now) }
{
    let n = count(entries);
    Lawful {
        degrees: (0..n).all(|k| limits::is_lawful_degree(entry(floor, entries, k).degree)),
        tops: (0..n).all(|k| limits::is_lawful_top(entry(floor, entries, k).top)),
    }
}

// Whether each degree is above the one before it.
pub fn do_ascend(floor: u32, entries: &[u32]) -> bool
    ensures { result ≡ ascending (entries_of floor entries.now) }
{
    let n = count(entries);
    (1..n).all(|k| entry(floor, entries, k - 1).degree < entry(floor, entries, k).degree)
}

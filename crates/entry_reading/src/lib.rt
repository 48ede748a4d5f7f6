// The entries of a catalogue's contents, read where they lie: each is as long as its degree makes it. Customers call nothing here.
#![tactic(auto)]

ghost use Rattle.std.specs.Prelude.{◌≡◌, ◌≤◌, length};
ghost use Rattle.definitions.specs.Catalogue.{byte_at, first_entry, most_entries, entry_at, behind_entry, behind_entries, body_size};
ghost use Rattle.number_laws.specs.Bounds.{LawfulTop};
ghost use Rattle.entry_reading.specs.Entries.{as_entry};

use catalogue_bytes::{bytes, sizes};

#[derive(Clone, Copy)]
pub struct Entry {
    pub degree: u32,
    pub top: u32,
    pub gaps: bool,
    pub rows: u32,
    pub offset: u32,
}

// The entry at a place.
#[tactic(auto, using(catalogue_laws::specs::Sizes::entry_size_is), unfolding(definitions::specs::Catalogue::entry_at))]
pub fn entry_at(s: &[u8], place: usize) -> Entry
    requires { behind_entry s.now place ≤ length s.now }
    ensures { as_entry result ≡ entry_at s.now place }
{
    let degree = bytes::byte(s, place);
    let width = sizes::count_size(degree);
    let count = place + sizes::COUNT_OFFSET;
    let number = bytes::byte(s, place + sizes::TOP_OFFSET);
    Entry {
        degree,
        top: marks::top_of(number),
        gaps: marks::has_gaps(number),
        rows: bytes::number(s, count, width),
        offset: bytes::number(s, count + width, sizes::OFFSET_SIZE),
    }
}

// The size of an entry's body.
#[tactic(auto, using(catalogue_laws::specs::Sizes::body_size_fits))]
pub fn body_size(e: Entry) -> usize
    requires { LawfulTop e.top }
    ensures { result ≡ body_size (as_entry e) }
{
    e.rows as usize * sizes::row_size(e.degree, e.top, e.gaps)
}

// The byte at a place; 0 behind the end of the file.
pub fn degree_at(s: &[u8], place: usize) -> u32
    ensures { result ≡ byte_at s.now place }
{
    s.get(place).map_or(0, |b| u32::from(*b))
}

// The place behind the n entries.
pub fn contents_end(s: &[u8], n: usize) -> usize
    requires { n ≤ most_entries }
    ensures { result ≡ behind_entries s.now n first_entry }
{
    let mut place = sizes::FIRST_ENTRY;
    for _ in 0..n {
        place += sizes::entry_size(degree_at(s, place));
    }
    place
}

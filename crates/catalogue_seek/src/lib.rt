// Where a degree's body lies in a catalogue that comes unchecked. Customers call nothing here.
#![tactic(auto)]

ghost use Rattle.std.specs.Prelude.{◌≡◌, ◌≤◌, length};
ghost use Rattle.definitions.specs.Catalogue.{contents_end, entry_of};
ghost use Rattle.catalogue_seek.specs.Seek.{unless_zero, locating};

use catalogue_bytes::{bytes, sizes};
use definitions::Refusal;

// A body: its place in the file and its size, the size of a row (from one row to the next), the top dimension, whether the rows have Δ, and the row
// count.
#[derive(Clone, Copy)]
pub struct BodyPlace {
    pub offset: usize,
    pub size: usize,
    pub stride: usize,
    pub top: u32,
    pub gaps: bool,
    pub rows: u32,
}

// The place of the degree's entry.
pub fn entry_of(s: &[u8], degree: u32) -> Option<usize>
    requires { (1 ≤ length s.now) × (contents_end s.now ≤ length s.now) }
    ensures { result ≡ unless_zero (entry_of s.now degree) }
{
    let n = bytes::byte(s, 0);
    let mut place = sizes::FIRST_ENTRY;
    for _ in 0..n {
        let here = bytes::byte(s, place);
        if here == degree {
            return Some(place);
        }
        place += sizes::entry_size(here);
    }
    None
}

// Where a degree's body is, or why the lookup is refused.
pub fn locate(file: &[u8], degree: u32) -> Result<BodyPlace, Refusal>
    ensures { result ≡ locating file.now degree }
{
    if !limits::is_lawful_degree(degree) {
        return Err(Refusal::WrongDegree);
    }
    if !catalogue_form::catalogue_form(file) {
        return Err(Refusal::IllFormedCatalogue);
    }
    let Some(place) = entry_of(file, degree) else {
        return Err(Refusal::DegreeMissing);
    };
    let e = entry_reading::entry_at(file, place);
    Ok(BodyPlace {
        offset: e.offset as usize,
        size: entry_reading::body_size(e),
        stride: sizes::row_size(e.degree, e.top, e.gaps),
        top: e.top,
        gaps: e.gaps,
        rows: e.rows,
    })
}

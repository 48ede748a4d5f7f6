// Where the rows of a body begin.
ghost use Rattle.std.specs.Prelude.{◌≡◌};
ghost use Rattle.definitions.specs.Catalogue.{at_row};

use catalogue_bytes::sizes;

// Whether a row begins at a place, and lies within the body.
#[tactic(auto, using(catalogue_laws::specs::Sizes::row_size_least), unfolding(definitions::specs::Catalogue::at_row))]
// The test itself of unchecked numbers, which are no form of a body yet.
pub fn at_row(body: &[u8], degree: u32, top: u32, gaps: bool, place: usize) -> bool
    ensures { result ≡ at_row degree top gaps body.now place }
{
    if !limits::is_lawful_degree(degree) || !limits::is_lawful_top(top) {
        return false;
    }
    let size = sizes::row_size(degree, top, gaps);
    place % size == 0 && place <= body.len() && size <= body.len() - place
}

// Rows of a body, by their places: the row at a place, and the place behind it.
#![tactic(auto)]

pub mod rows;

ghost use Rattle.std.specs.Prelude.{◌≡◌};
ghost use Rattle.definitions.specs.Catalogue.{next_row, next_place};

use catalogue_bytes::form::BodyForm;
use catalogue_bytes::sizes;
use definitions::Row;

// The row at a place of a body, p with its leading term, or the end.
#[tactic(auto, unfolding(definitions::specs::Catalogue::next_row, definitions::specs::Catalogue::at_row))]
// Degree, T and kind by themselves: they come unchecked, from C too, so they are no form of a body yet.
pub fn row_at(body: &[u8], degree: u32, top: u32, gaps: bool, place: usize) -> Option<Row>
    ensures { result ≡ next_row degree top gaps body.now place }
{
    if !rows::at_row(body, degree, top, gaps, place) {
        return None;
    }
    Some(row_reading::decode(body, BodyForm { degree, top, gaps }, place))
}

// The place behind the row at a place; at the end it stays.
#[tactic(auto, unfolding(definitions::specs::Catalogue::next_place, definitions::specs::Catalogue::at_row))]
pub fn place_behind(body: &[u8], degree: u32, top: u32, gaps: bool, place: usize) -> usize
    ensures { result ≡ next_place degree top gaps body.now place }
{
    if !rows::at_row(body, degree, top, gaps, place) {
        return place;
    }
    place + sizes::row_size(degree, top, gaps)
}

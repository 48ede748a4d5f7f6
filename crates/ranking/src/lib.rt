// Pages of the ranked list.
#![tactic(auto)]

ghost use Rattle.std.specs.Prelude.{◌≡◌};
ghost use Rattle.definitions.specs.Calls.{page_request, page_answer, page_slice};

use definitions::{Page, PageRequest, Position, Refusal, Selection};
use page_rows::serve;
use row_places::width_of;

pub mod position; // whether a position can be read from

// The request for a page of a list.
pub fn request(list: Selection, position: Position) -> PageRequest
    ensures { result ≡ page_request list position }
{
    PageRequest {
        degree: list.degree,
        top: list.top,
        floor: list.floor,
        gaps: list.gaps,
        position: position,
    }
}

// The rows of the ranked list above the position, as many as fit `out`, from its front: how many, and whether a further row exists; or the
// documents' refusal 1, 2 or 12, 3 to 6 or 11 for a position after a pair, or 7. Every number behind the rows stays, and a refusal writes nothing.
pub fn page(request: PageRequest, out: &mut [u32]) -> Result<Page, Refusal>
    ensures answer { result ≡ page_answer request out.old }
    ensures slice { out.new ≡ page_slice request out.old }
{
    let list = Selection {
        degree: request.degree,
        top: request.top,
        floor: request.floor,
        gaps: request.gaps,
    };
    let position = request.position;
    if !limits::is_lawful_degree(list.degree) {
        return Err(Refusal::WrongDegree);
    }
    if !limits::is_lawful_top(list.top) {
        return Err(Refusal::WrongDimension);
    }
    if !limits::is_lawful_floor(list.floor) {
        return Err(Refusal::WrongFloor);
    }
    position::check_position(list.degree, list.floor, position)?;
    if out.len() < width_of(list) {
        return Err(Refusal::ShortSlice);
    }
    Ok(serve::fill(list, position, out))
}

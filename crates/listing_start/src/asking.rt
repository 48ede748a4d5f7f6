// What is printed upon a line that can be read.
ghost use Rattle.std.specs.Prelude.{◌≡◌, Some};
ghost use Rattle.definitions.specs.Answers.{refusal_number};
ghost use Rattle.listing_start.specs.Decision.{printing_of};

use crate::Printing;
use definitions::{Asked, Refusal, Selection};

// The refusal that belongs to programs alone.
pub(crate) const UNREADABLE: u32 = 0;

// The line of a refusal of the library.
fn refuse(refusal: Refusal) -> Printing
    ensures { result ≡ Printing.Refused (refusal_number refusal) }
{
    Printing::Refused(answers::refusal_number(refusal))
}

// The list, or its refusal: an unlawful page size first, then the refusals of a page, which no row fits where the size is 0.
pub(crate) fn decide(asked: Asked) -> Printing
    ensures { result ≡ printing_of (Some asked) }
{
    let Asked {
        degree,
        top,
        size,
        floor,
    } = asked;
    if size > listing::LARGEST_SIZE {
        return Printing::Refused(UNREADABLE);
    }
    if !limits::is_lawful_degree(degree) {
        return refuse(Refusal::WrongDegree);
    }
    if !limits::is_lawful_top(top) {
        return refuse(Refusal::WrongDimension);
    }
    if !limits::is_lawful_floor(floor) {
        return refuse(Refusal::WrongFloor);
    }
    if size == 0 {
        return refuse(Refusal::ShortSlice);
    }
    let list = Selection {
        degree,
        top,
        floor,
        gaps: false,
    };
    Printing::Whole(list, size)
}

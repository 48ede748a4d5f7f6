// What is printed upon a line: `start` reads the line and decides, and what is left to print is a value, whose text is the listing of the line.
// `listing_parts` puts that text part by part.
#![tactic(auto)]

ghost use Rattle.std.specs.Prelude.{◌≡◌};
ghost use Rattle.definitions.specs.Listing.{read_line};
ghost use Rattle.listing_start.specs.Decision.{printing_of};

mod asking; // what is printed upon a line that can be read

use cursor::reading::Cursor;
use definitions::Selection;

// What is left to print.
#[derive(Clone, Copy)]
pub enum Printing {
    // The line of a refusal,
    Refused(u32),
    // a list in pages of so many rows,
    Whole(Selection, u32),
    // its rows from a cursor on, behind so many that are printed, and its total,
    Rows(Cursor, u32, u32),
    // the total alone,
    Total(u32),
    // or nothing.
    Nothing,
}

// What is printed for the bytes of a line.
pub fn start(input: &[u8]) -> Printing
    ensures { result ≡ printing_of (read_line input.now) }
{
    match listing::read_line(input) {
        Some(asked) => asking::decide(asked),
        None => Printing::Refused(asking::UNREADABLE),
    }
}

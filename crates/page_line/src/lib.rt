// The line below a page, put at a place of a buffer: where it fits, the answer is the place behind it; where it does not, nothing is written
// and the answer is the place itself.
#![tactic(auto)]

ghost use Rattle.std.specs.Prelude.{◌≡◌, ◌≤◌, length};
ghost use Rattle.definitions.specs.Listing.{page_text};
ghost use Rattle.page_line.specs.Texts.{page_line, most_ending};
ghost use Rattle.slice_laws.specs.Place.{placed, behind};

pub mod due; // the line behind a row, where its page or the list ends

use text::lines::put_long_line;

// A page's number, its rows, and whether more follow.
pub fn put_page(out: &mut [u8], at: usize, number: u32, rows: u32, further: bool) -> usize
    ensures value { result ≡ behind at (page_text number rows further) out.old }
    ensures out_after { out.new ≡ placed at (page_text number rows further) out.old }
{
    if further {
        put_page_line(out, at, number, rows, b" more\n")
    } else {
        put_page_line(out, at, number, rows, b" end\n")
    }
}

// The same with the ending that says whether more follow.
fn put_page_line(out: &mut [u8], at: usize, number: u32, rows: u32, ending: &[u8]) -> usize
    requires { length ending.now ≤ most_ending }
    ensures value { result ≡ behind at (page_line number rows ending.now) out.old }
    ensures out_after { out.new ≡ placed at (page_line number rows ending.now) out.old }
{
    put_long_line(out, at, b"page ", number, b" rows ", rows, ending)
}

// The line that is read and the text that is printed, on byte slices. A text is put at a place of a buffer: where it fits, the answer
// is the place behind it; where it does not, nothing is written and the answer is the place itself.
#![tactic(auto)]

ghost use Rattle.std.specs.Prelude.{◌≡◌};
ghost use Rattle.definitions.specs.Listing.{decimal, header_text, row_text, page_text, total_text, refused_text, read_line};
ghost use Rattle.slice_laws.specs.Place.{placed, behind};

use definitions::Asked;

// The largest page size.
pub const LARGEST_SIZE: u32 = 1000;

// The line that is asked with, and the defaults for what it does not say; what follows a newline is not read.
pub fn read_line(input: &[u8]) -> Option<Asked>
    ensures { result ≡ read_line input.now }
{
    asked_line::read_line(input)
}

// The decimal digits of n.
pub fn put_decimal(out: &mut [u8], at: usize, n: u32) -> usize
    ensures value { result ≡ behind at (decimal n) out.old }
    ensures out_after { out.new ≡ placed at (decimal n) out.old }
{
    decimal_text::put_decimal(out, at, n)
}

// The line above a list.
pub fn put_header(out: &mut [u8], at: usize, degree: u32, top: u32) -> usize
    ensures value { result ≡ behind at (header_text degree top) out.old }
    ensures out_after { out.new ≡ placed at (header_text degree top) out.old }
{
    list_lines::put_header(out, at, degree, top)
}

// The numbers of a row, of any length.
pub fn put_row(out: &mut [u8], at: usize, row: &[u32]) -> usize
    ensures value { result ≡ behind at (row_text row.now) out.old }
    ensures out_after { out.new ≡ placed at (row_text row.now) out.old }
{
    row_text::put_row(out, at, row)
}

// The line below a page: its number, its rows, and whether more follow.
pub fn put_page(out: &mut [u8], at: usize, number: u32, rows: u32, further: bool) -> usize
    ensures value { result ≡ behind at (page_text number rows further) out.old }
    ensures out_after { out.new ≡ placed at (page_text number rows further) out.old }
{
    page_line::put_page(out, at, number, rows, further)
}

// The line below a list: the sum of all rows.
pub fn put_total(out: &mut [u8], at: usize, rows: u32) -> usize
    ensures value { result ≡ behind at (total_text rows) out.old }
    ensures out_after { out.new ≡ placed at (total_text rows) out.old }
{
    list_lines::put_total(out, at, rows)
}

// The line that is printed in place of a list.
pub fn put_refused(out: &mut [u8], at: usize, number: u32) -> usize
    ensures value { result ≡ behind at (refused_text number) out.old }
    ensures out_after { out.new ≡ placed at (refused_text number) out.old }
{
    list_lines::put_refused(out, at, number)
}

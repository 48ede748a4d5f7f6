// One line is read, and its list printed, or why there is none: the parts of its text, one after the other. What they are is proved of
// `listing_start` and `listing_parts`; here it is proved that all are written, to any writer, and that no more than the line is read, from any reader.
ghost use Rattle.std.specs.Prelude.{◌≤◌, List, ℕ, length, OnOk};
ghost use Rattle.std.specs.Io.KnownBytes.{Appends};
ghost use Rattle.definitions.specs.Listing.{listing};
ghost use Rattle.definitions.specs.Ranking.{longest_row};
ghost use Rattle.paged_rows.specs.Room.{step_room};
ghost use Rattle.listing_start.specs.Left.{Underway, text_left};
ghost use Rattle.streams.specs.Lines.{TakesLine};
ghost use Rattle.listing_program.specs.Rooms.{numbers_at_hand, bytes_at_hand};

use listing_parts::parts;
use listing_start::Printing;
use std::io;
use std::io::{Read, Write};

// More bytes than a line that can be read.
const LINE_ROOM: usize = 64;

// More rows than any list has, so that one search serves a whole list.
const ROWS_AT_HAND: usize = 3072;

// The numbers of so many rows, and the bytes of their text.
const NUMBERS_AT_HAND: usize = ROWS_AT_HAND * limits::LONGEST_ROW;

const BYTES_AT_HAND: usize = ROWS_AT_HAND * paged_rows::STEP_ROOM;

// All that is left, part by part.
fn print_parts<W: Write>(
    output: &mut W,
    first: Printing,
    rows: &mut [u32],
    text: &mut [u8],
) -> io::Result<()>
    requires underway { Underway first }
    requires longest_row_in_bounds { longest_row ≤ length rows.old }
    requires step_room_in_bounds { step_room ≤ length text.old }
    ensures { OnOk result (Appends (W.contents output.old) (W.contents output.new) (text_left first)) }
{
    let mut at = first;
    loop {
        let part = parts::next(at, rows, text);
        streams::write_front(output, text, part.bytes)?;
        if !part.more {
            return Ok(());
        }
        at = part.next;
    }
}

// The listing of a line, in parts that the first numbers and bytes of the slices hold.
fn print_within<W: Write>(
    output: &mut W,
    input: &[u8],
    rows: &mut [u32],
    text: &mut [u8],
    numbers: usize,
    bytes: usize,
) -> io::Result<()>
    requires longest_row_le_numbers { (longest_row ≤ numbers) × (numbers ≤ length rows.old) }
    requires step_room_le_bytes { (step_room ≤ bytes) × (bytes ≤ length text.old) }
    ensures { OnOk result (Appends (W.contents output.old) (W.contents output.new) (listing input.now)) }
{
    let first = listing_start::start(input);
    print_parts(output, first, &mut rows[..numbers], &mut text[..bytes])
}

// The listing of a line, in parts that so many numbers and bytes hold.
pub fn print<W: Write>(output: &mut W, input: &[u8], numbers: usize, bytes: usize) -> io::Result<()>
    requires longest_row_le_numbers { (longest_row ≤ numbers) × (numbers ≤ numbers_at_hand) }
    requires step_room_le_bytes { (step_room ≤ bytes) × (bytes ≤ bytes_at_hand) }
    ensures { OnOk result (Appends (W.contents output.old) (W.contents output.new) (listing input.now)) }
{
    let mut numbers_at_hand = [0u32; NUMBERS_AT_HAND];
    let rows: &mut [u32] = &mut numbers_at_hand;
    let mut bytes_at_hand = [0u8; BYTES_AT_HAND];
    let text: &mut [u8] = &mut bytes_at_hand;
    print_within(output, input, rows, text, numbers, bytes)
}

// The same for the line that is next in a reader.
pub fn run_within<R: Read, W: Write>(
    reader: &mut R,
    output: &mut W,
    numbers: usize,
    bytes: usize,
) -> io::Result<()>
    requires longest_row_le_numbers { (longest_row ≤ numbers) × (numbers ≤ numbers_at_hand) }
    requires step_room_le_bytes { (step_room ≤ bytes) × (bytes ≤ bytes_at_hand) }
    ensures { OnOk result ((line : List ℕ) × TakesLine (R.remaining reader.old) (R.remaining reader.new) line LINE_ROOM × Appends (W.contents output.old) (W.contents output.new) (listing line)) }
{
    let mut input = [0u8; LINE_ROOM];
    let n = streams::read_line(reader, &mut input)?;
    print(output, &input[..n], numbers, bytes)
}

// The same with all the room at hand.
pub fn run<R: Read, W: Write>(reader: &mut R, output: &mut W) -> io::Result<()>
    ensures { OnOk result ((line : List ℕ) × TakesLine (R.remaining reader.old) (R.remaining reader.new) line LINE_ROOM × Appends (W.contents output.old) (W.contents output.new) (listing line)) }
{
    run_within(reader, output, NUMBERS_AT_HAND, BYTES_AT_HAND)
}

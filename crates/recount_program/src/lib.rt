// The program `recount` whole, for the programs that run it: a line is read, and what belongs to it printed. What that is is proved of `recount_line`;
// here it is proved that it is written, to any writer, and that no more than the line is read, from any reader.
#![tactic(auto)]

ghost use Rattle.std.specs.Prelude.{List, ℕ, OnOk};
ghost use Rattle.std.specs.Io.KnownBytes.{Appends};
ghost use Rattle.definitions.specs.Recount.{recount};
ghost use Rattle.streams.specs.Lines.{TakesLine};

use recount_line::TEXT_ROOM;
use std::io;
use std::io::{Read, Write};

// More bytes than a line that can be read: four numbers of nine digits, and a space behind each, are 40.
const LINE_ROOM: usize = 64;

// What is printed for the bytes of a line.
pub fn print<W: Write>(output: &mut W, input: &[u8]) -> io::Result<()>
    ensures { OnOk result (Appends (W.contents output.old) (W.contents output.new) (recount input.now)) }
{
    let mut text = [0u8; TEXT_ROOM];
    let end = recount_line::put_recount(&mut text, 0, input);
    streams::write_front(output, &text, end)
}

// The same for the line that is next in a reader.
pub fn run<R: Read, W: Write>(reader: &mut R, output: &mut W) -> io::Result<()>
    ensures { OnOk result ((line : List ℕ) × TakesLine (R.remaining reader.old) (R.remaining reader.new) line LINE_ROOM × Appends (W.contents output.old) (W.contents output.new) (recount line)) }
{
    let mut input = [0u8; LINE_ROOM];
    let n = streams::read_line(reader, &mut input)?;
    print(output, &input[..n])
}

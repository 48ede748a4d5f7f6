// Writes the catalogue that a line of standard input asks for to standard output: the floor, then degree, T, degree, T, .., with T + 16 for rows with Δ.
// A refusal goes to standard error. What both are is proved of `catalogue_line`; here it is proved that they are written, to any writers, and that no
// more than the line is read, from any reader.
#![tactic(auto)]

ghost use Rattle.std.specs.Prelude.{◌≤◌, List, ℕ, length, OnOk};
ghost use Rattle.std.specs.Io.KnownBytes.{Appends};
ghost use Rattle.definitions.specs.Writing.{file_numbers, file_output, file_errors};
ghost use Rattle.streams.specs.Lines.{TakesLine};
ghost use Rattle.writing_laws.specs.Longest.{longest_file};

use catalogue_line::{FILE_ROOM, TEXT_ROOM};
use std::io;
use std::io::{Read, Write};

// More bytes than a line that can be read: thirty-one numbers of nine digits, and a space behind each, are 310.
const LINE_ROOM: usize = 320;

// The answer to a line, through a buffer that holds any file.
fn write_through<W: Write, E: Write>(
    output: &mut W,
    errors: &mut E,
    input: &[u8],
    file: &mut [u8],
) -> io::Result<()>
    requires { longest_file ≤ length file.old }
    ensures file_written { OnOk result (Appends (W.contents output.old) (W.contents output.new) (file_output (file_numbers input.now))) }
    ensures refusal_written { OnOk result (Appends (E.contents errors.old) (E.contents errors.new) (file_errors (file_numbers input.now))) }
{
    let mut text = [0u8; TEXT_ROOM];
    let lengths = catalogue_line::answer(input, file, &mut text);
    streams::write_front(output, file, lengths.file)?;
    streams::write_front(errors, &text, lengths.text)
}

fn write<W: Write, E: Write>(output: &mut W, errors: &mut E, input: &[u8]) -> io::Result<()>
    ensures file_written { OnOk result (Appends (W.contents output.old) (W.contents output.new) (file_output (file_numbers input.now))) }
    ensures refusal_written { OnOk result (Appends (E.contents errors.old) (E.contents errors.new) (file_errors (file_numbers input.now))) }
{
    let mut file_at_hand = [0u8; FILE_ROOM];
    let file: &mut [u8] = &mut file_at_hand;
    write_through(output, errors, input, file)
}

// The same for the line that is next in a reader.
fn run<R: Read, W: Write, E: Write>(
    reader: &mut R,
    output: &mut W,
    errors: &mut E,
) -> io::Result<()>
    ensures { OnOk result ((line : List ℕ) × TakesLine (R.remaining reader.old) (R.remaining reader.new) line LINE_ROOM × Appends (W.contents output.old) (W.contents output.new) (file_output (file_numbers line)) × Appends (E.contents errors.old) (E.contents errors.new) (file_errors (file_numbers line))) }
{
    let mut input = [0u8; LINE_ROOM];
    let n = streams::read_line(reader, &mut input)?;
    write(output, errors, &input[..n])
}

fn main(rt: HostRuntime) -> io::Result<()> {
    run(&mut rt.stdin(), &mut rt.stdout(), &mut rt.stderr())
}

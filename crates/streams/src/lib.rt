// What the programs do with their streams: a line is read, and the first bytes of a buffer are written; test programs print words and numbers.
// A read or a write that fails ends the program, with its error.
#![tactic(auto)]

ghost use Rattle.std.specs.Prelude.{◌≡◌, ◌≤◌, [], ◌∷◌, ◌++◌, length, take, drop, flat_map, decimal, IfOk, IfErr, OnOk};
ghost use Rattle.std.specs.Io.KnownBytes.{Appends};
ghost use Rattle.streams.specs.Lines.{IsNext, TakesLine, spaced};

use std::io;
use std::io::{Read, Write};

// The next byte of the input, if there is one.
fn next_byte<R: Read>(reader: &mut R) -> io::Result<Option<u8>>
    ensures { IfOk result (IsNext (R.remaining reader.old) (R.remaining reader.new)) }
{
    let mut byte = [0u8; 1];
    let got = reader.read(&mut byte)?;
    Ok((got == 1).then_some(byte[0]))
}

// Reads the line byte by byte, so that nothing behind its newline is read, and answers how many bytes came.
// A line that fills the buffer is longer than any that can be read. Where a read fails, the bytes that came before stand over the buffer's front.
pub fn read_line<R: Read>(reader: &mut R, input: &mut [u8]) -> io::Result<usize>
    ensures in_bounds { IfOk result (λ n. n ≤ length input.new) }
    ensures behind { IfOk result (λ n. drop n input.new ≡ drop n input.old) }
    ensures taken { IfOk result (λ n. TakesLine (R.remaining reader.old) (R.remaining reader.new) (take n input.new) (length input.new)) }
    ensures on_error { IfErr result (λ e. length input.new ≡ length input.old) }
{
    for n in 0..input.len() {
        match next_byte(reader)? {
            None | Some(b'\n') => return Ok(n),
            Some(b) => input[n] = b,
        }
    }
    Ok(input.len())
}

// Writes the first n bytes to a stream.
// A buffer and a count: the contract is of both, and so is the edit `whole_buffer`.
pub fn write_front<W: Write>(stream: &mut W, bytes: &[u8], n: usize) -> io::Result<()>
    requires { n ≤ length bytes.now }
    ensures { OnOk result (Appends (W.contents stream.old) (W.contents stream.new) (take n bytes.now)) }
{
    stream.write_all(&bytes[..n])
}

// Prints a word and a number behind it.
pub fn print_number<W: Write>(stream: &mut W, word: &[u8], number: u64) -> io::Result<()>
    ensures { OnOk result (Appends (W.contents stream.old) (W.contents stream.new) (word.now ++ decimal number)) }
{
    stream.write_all(word)?;
    write!(stream, "{number}")
}

// Prints a word, and each number behind a space.
pub fn print_numbers<W: Write>(stream: &mut W, word: &[u8], numbers: &[u32]) -> io::Result<()>
    ensures { OnOk result (Appends (W.contents stream.old) (W.contents stream.new) (word.now ++ flat_map spaced numbers.now)) }
{
    stream.write_all(word)?;
    for n in numbers {
        print_number(stream, b" ", u64::from(*n))?;
    }
    Ok(())
}

pub fn new_line<W: Write>(stream: &mut W) -> io::Result<()>
    ensures { OnOk result (Appends (W.contents stream.old) (W.contents stream.new) (10 ∷ [])) }
{
    stream.write_all(b"\n")
}

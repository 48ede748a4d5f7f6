// Catalogues written: each line of the input is the length of a buffer, the floor, and the entries. Before the call each byte of the buffer is 165.
// Printed are the line as it came and what the call did:
//     length LENGTH                   of the file; or, where there is none,
//     refused NUMBER
//     BYTES                           of the file in hexadecimal, 32 to a line
//     untouched COUNT                 how many of the other bytes of the buffer are 165
#![tactic(auto)]

ghost use Rattle.std.specs.Prelude.{◌<◌, length};

use std::io;
use std::io::{Read, Write};

// As many lines as the input has.
const LINES: u32 = 325;

const LINE_ROOM: usize = 320;

// The room, the floor, and more entries than there are degrees.
const MOST_NUMBERS: usize = 40;

// The largest room, and what every byte of it is before a call.
const FILE_ROOM: usize = 65536;

const BEFORE: u8 = 165;

// A word and a number, on a line.
fn print_number<W: Write>(output: &mut W, word: &[u8], n: u64) -> io::Result<()> {
    streams::print_number(output, word, n)?;
    streams::new_line(output)
}

// The first n bytes, and how many of the others are as they were.
fn print_buffer<W: Write>(output: &mut W, file: &[u8], n: usize) -> io::Result<()> {
    let (written, others) = file.split_at(n.min(file.len()));
    for line in written.chunks(32) {
        for byte in line {
            write!(output, "{byte:02x}")?;
        }
        streams::new_line(output)?;
    }
    let untouched = others.iter().filter(|byte| **byte == BEFORE).count();
    print_number(output, b"untouched ", untouched as u64)
}

fn write<W: Write>(output: &mut W, floor: u32, entries: &[u32], file: &mut [u8]) -> io::Result<()> {
    match catalogue_writer::write(floor, entries, file) {
        Ok(length) => {
            print_number(output, b"length ", length as u64)?;
            print_buffer(output, file, length)
        }
        Err(refusal) => {
            let number = answers::refusal_number(refusal);
            print_number(output, b"refused ", u64::from(number))?;
            print_buffer(output, file, 0)
        }
    }
}

// The room comes first, then the floor.
fn write_within<W: Write>(output: &mut W, numbers: &[u32]) -> io::Result<()>
    requires { 1 < length numbers.now }
{
    let mut file = [BEFORE; FILE_ROOM];
    let room = numbers[0] as usize;
    let floor = numbers[1];
    if room <= FILE_ROOM {
        write(output, floor, &numbers[2..], &mut file[..room])?;
    }
    Ok(())
}

// The next line of the input.
fn write_line<R: Read, W: Write>(reader: &mut R, output: &mut W) -> io::Result<()> {
    let mut input = [b'\n'; LINE_ROOM];
    let n = streams::read_line(reader, &mut input)?;
    streams::write_front(output, &input, n)?;
    streams::new_line(output)?;
    let mut numbers = [0u32; MOST_NUMBERS];
    let count = line::read_numbers(&input, &mut numbers);
    if count > 1 {
        write_within(output, &numbers[..count])?;
    }
    Ok(())
}

fn main(rt: HostRuntime) -> io::Result<()> {
    let mut input = rt.stdin();
    let mut output = rt.stdout();
    for _ in 0..LINES {
        write_line(&mut input, &mut output)?;
    }
    // Numbers of ten digits, which no line has.
    output.write_all(b"100 0 4294967295 4\n")?;
    write_within(&mut output, &[100, 0, 4294967295, 4])?;
    output.write_all(b"100 0 3 4294967295\n")?;
    write_within(&mut output, &[100, 0, 3, 4294967295])?;
    output.write_all(b"100 4294967295 3 4\n")?;
    write_within(&mut output, &[100, 4294967295, 3, 4])
}

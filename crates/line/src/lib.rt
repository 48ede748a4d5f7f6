// A line of numbers in decimal, single spaces between, read into a slice: for every program that is asked by a line.
#![tactic(auto)]

ghost use Rattle.std.specs.Prelude.{◌≡◌, length};
ghost use Rattle.definitions.specs.Number.{over};
ghost use Rattle.definitions.specs.Listing.{numbers_within, words_of};
ghost use Rattle.line.specs.Numbers.{count_of, numbers_of};

mod word;

use word::{find, read_word};

// The numbers of a line, at most as many as the slice holds, and how many they are; 0 and nothing written where the line cannot be read or
// has more. What follows a newline is not read.
// 0 stands for a line that cannot be read: so promised, and a line that can be read has a number.
pub fn read_numbers(input: &[u8], out: &mut [u32]) -> usize
    ensures value { result ≡ length (numbers_within (length out.old) input.now) }
    ensures out_after { out.new ≡ over 0 (numbers_within (length out.old) input.now) out.old }
{
    let end = find(input, b'\n');
    read_line(&input[..end], out).unwrap_or(0)
}

// How many numbers a line has, one word a call, with the numbers over the front of the slice. Each is stored when those behind it are, so that a line
// that cannot be read leaves the slice as it was.
fn read_line(line: &[u8], out: &mut [u32]) -> Option<usize>
    ensures value { result ≡ count_of (numbers_of (length out.old) (words_of line.now)) }
    ensures out_after { out.new ≡ over 0 (numbers_of (length out.old) (words_of line.now)) out.old }
{
    if out.is_empty() {
        return None;
    }
    let end = find(line, b' ');
    let n = read_word(&line[..end])?;
    let others = if end < line.len() {
        read_line(&line[end + 1..], &mut out[1..])?
    } else {
        0
    };
    out[0] = n;
    Some(others + 1)
}

// Lines of words and numbers, put at a place. Their words are short, so that no sum of lengths wraps.
ghost use Rattle.std.specs.Prelude.{◌≡◌, ◌+◌, ◌≤◌, ◌<◌, ◌^◌, length, flat_map, sum_by};
ghost use Rattle.text.specs.Lines.{most_letters, short_line, long_line};
ghost use Rattle.slice_laws.specs.Place.{placed, behind};

use decimal_text::write::{fits, write_text};
use itoa::Buffer;

// Texts, one behind the other.
fn put_texts(out: &mut [u8], at: usize, texts: &[&[u8]]) -> usize
    requires { sum_by (λ text. length text.now) texts.now < 2 ^ 64 }
    ensures value { result ≡ behind at (flat_map (λ text. text.now) texts.now) out.old }
    ensures out_after { out.new ≡ placed at (flat_map (λ text. text.now) texts.now) out.old }
{
    let len = texts.iter().map(|text| text.len()).sum();
    if !fits(out, at, len) {
        return at;
    }
    let mut end = at;
    for text in texts {
        end = write_text(out, end, text);
    }
    at + len
}

// A line of a word and a number.
pub fn put_line(out: &mut [u8], at: usize, word: &[u8], n: u32) -> usize
    requires { length word.now ≤ most_letters }
    ensures value { result ≡ behind at (short_line word.now n) out.old }
    ensures out_after { out.new ≡ placed at (short_line word.now n) out.old }
{
    let mut buffer = Buffer::new();
    let number = buffer.format(n).as_bytes();
    put_texts(out, at, &[word, number, b"\n"])
}

// A line of two words with their numbers and an ending.
pub fn put_long_line<'a>(
    out: &mut [u8],
    at: usize,
    word: &'a [u8],
    n: u32,
    other: &'a [u8],
    k: u32,
    ending: &'a [u8],
) -> usize
    requires { length word.now + length other.now + length ending.now ≤ most_letters }
    ensures value { result ≡ behind at (long_line word.now n other.now k ending.now) out.old }
    ensures out_after { out.new ≡ placed at (long_line word.now n other.now k ending.now) out.old }
{
    let mut first = Buffer::new();
    let first = first.format(n).as_bytes();
    let mut second = Buffer::new();
    let second = second.format(k).as_bytes();
    put_texts(out, at, &[word, first, other, second, ending])
}

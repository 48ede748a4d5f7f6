// The words of a line, and the number that a word is.
ghost use Rattle.std.specs.Prelude.{◌≡◌, length};
ghost use Rattle.line.specs.Part.{up_to};
ghost use Rattle.line.specs.Word.{word_of};

// The most digits of a number that is read: with them it stays within 32 bits.
const MOST_DIGITS: usize = 9;

// The place of the first such byte, or of the end.
pub fn find(s: &[u8], byte: u8) -> usize
    ensures { result ≡ length (up_to byte s.now) }
{
    s.iter().position(|b| *b == byte).unwrap_or(s.len())
}

// The number that a word is, if it is one.
pub fn read_word(word: &[u8]) -> Option<u32>
    ensures { result ≡ word_of word.now }
{
    if word.is_empty() || word.len() > MOST_DIGITS {
        return None;
    }
    let mut value = 0;
    for b in word {
        if !b.is_ascii_digit() {
            return None;
        }
        value = value * 10 + u32::from(*b - b'0');
    }
    Some(value)
}

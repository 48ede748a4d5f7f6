// What the program that writes a catalogue answers to a line, in two lent buffers: the file that goes to standard output, and the line of a refusal
// that goes to standard error. One of the two is empty.
#![tactic(auto)]

ghost use Rattle.std.specs.Prelude.{◌≡◌, ◌<◌, ◌≤◌, length};
ghost use Rattle.definitions.specs.Number.{over};
ghost use Rattle.definitions.specs.Listing.{refused_text};
ghost use Rattle.definitions.specs.Writing.{file_numbers, file_output, file_errors};
ghost use Rattle.list_lines.specs.Texts.{refused_room};
ghost use Rattle.writing_laws.specs.Longest.{longest_file};

// The floor, and a degree and T for each lawful degree.
const MOST_NUMBERS: usize = 1 + 2 * catalogue_form::MOST_ENTRIES;

// More bytes than any file has, and as many as the line of a refusal has at most.
pub const FILE_ROOM: usize = 32 << limits::LARGEST_DEGREE;

pub const TEXT_ROOM: usize = 19;

// The refusal that belongs to programs alone.
const UNREADABLE: u32 = 0;

// How many bytes there are of the file and of the line of a refusal.
#[derive(Clone, Copy)]
pub struct Output {
    pub file: usize,
    pub text: usize,
}

// The line of a refusal, and no file.
fn refuse(text: &mut [u8], number: u32) -> Output
    requires { refused_room ≤ length text.old }
    ensures value { result ≡ record { file = 0; text = length (refused_text number) } }
    ensures text_after { text.new ≡ over 0 (refused_text number) text.old }
{
    let bytes = list_lines::put_refused(text, 0, number);
    Output {
        file: 0,
        text: bytes,
    }
}

// The file that the floor and the entries behind it ask for, or the line of its refusal.
fn write(numbers: &[u32], file: &mut [u8], text: &mut [u8]) -> Output
    requires numbers_nonzero { 0 < length numbers.now }
    requires longest_file_in_bounds { longest_file ≤ length file.old }
    requires refused_room_in_bounds { refused_room ≤ length text.old }
    ensures file_value { result.file ≡ length (file_output numbers.now) }
    ensures text_value { result.text ≡ length (file_errors numbers.now) }
    ensures file_after { file.new ≡ over 0 (file_output numbers.now) file.old }
    ensures text_after { text.new ≡ over 0 (file_errors numbers.now) text.old }
{
    match catalogue_writer::write(numbers[0], &numbers[1..], file) {
        Ok(length) => Output {
            file: length,
            text: 0,
        },
        Err(refusal) => refuse(text, answers::refusal_number(refusal)),
    }
}

// The answer to a line; what follows a newline is not read.
pub fn answer(input: &[u8], file: &mut [u8], text: &mut [u8]) -> Output
    requires longest_file_in_bounds { longest_file ≤ length file.old }
    requires refused_room_in_bounds { refused_room ≤ length text.old }
    ensures file_value { result.file ≡ length (file_output (file_numbers input.now)) }
    ensures text_value { result.text ≡ length (file_errors (file_numbers input.now)) }
    ensures file_after { file.new ≡ over 0 (file_output (file_numbers input.now)) file.old }
    ensures text_after { text.new ≡ over 0 (file_errors (file_numbers input.now)) text.old }
{
    let mut numbers = [0u32; MOST_NUMBERS];
    let n = line::read_numbers(input, &mut numbers);
    if n == 0 {
        return refuse(text, UNREADABLE);
    }
    write(&numbers[..n], file, text)
}

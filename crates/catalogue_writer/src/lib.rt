// Writes a catalogue: the file of the ranked lists that entries ask for, into a lent buffer. Entries and buffer come unchecked.
#![tactic(auto)]

ghost use Rattle.std.specs.Prelude.{◌≡◌};
ghost use Rattle.definitions.specs.Writing.{file_answer, file_buffer};

use catalogue_file::write_file;
use catalogue_measure::take_measure;
use definitions::Refusal;

// Writes the file over the front of the buffer, and answers its length; or document 02's refusal 1, 2, 12, 13 or 14. `entries` is degree, T, degree,
// T, .., and all lists of the file have the floor given.
pub fn write(floor: u32, entries: &[u32], file: &mut [u8]) -> Result<usize, Refusal>
    ensures value { result ≡ file_answer floor entries.now file.old }
    ensures file_after { file.new ≡ file_buffer floor entries.now file.old }
{
    let lawful = entry_tests::are_lawful(floor, entries);
    if !lawful.degrees {
        return Err(Refusal::WrongDegree);
    }
    if !lawful.tops {
        return Err(Refusal::WrongDimension);
    }
    if !limits::is_lawful_floor(floor) {
        return Err(Refusal::WrongFloor);
    }
    if !entry_tests::do_ascend(floor, entries) {
        return Err(Refusal::NotAscending);
    }
    let measured = take_measure(floor, entries);
    if file.len() < measured.length {
        return Err(Refusal::FileTooLong);
    }
    write_file(floor, entries, measured.contents, file);
    Ok(measured.length)
}

// The file that lawful entries ask for, written over a buffer that holds it. Customers call nothing here.
#![tactic(auto)]

ghost use Rattle.std.specs.Prelude.{◌≡◌, map, ◌+◌, ◌*◌, ◌^◌, ◌≤◌, ◌<◌, length};
ghost use Rattle.definitions.specs.Number.{over};
ghost use Rattle.definitions.specs.Ranking.{row_width, ranked};
ghost use Rattle.definitions.specs.Catalogue.{offset_size, entry_size, row_size, first_entry};
ghost use Rattle.definitions.specs.Writing.{body_bytes, entry_bytes, behind_lists, entries_of, ranked_list, ranked_file};
ghost use Rattle.writing_laws.specs.RankedFile.{LawfulEntries};
ghost use Rattle.search.specs.Frame.{LawfulList};

use catalogue_body::write_body;
use catalogue_bytes::sizes;
use catalogue_entries::{count, entry};
use catalogue_fields::entry::write_entry;
use definitions::Selection;

// More rows than any list has, so that one search serves a whole list.
const ROWS_AT_HAND: usize = 2884;

const NUMBERS_AT_HAND: usize = ROWS_AT_HAND * limits::LONGEST_ROW;

// The place of a body as its entry says it, that of a body without rows too.
fn offset_of(at: usize) -> u32
    requires { at < 256 ^ offset_size }
    ensures { result ≡ at }
{
    at as u32
}

// Writes a list's body, and at `place` its entry, which says where the body lies; answers the place behind the body.
fn write_list(list: Selection, rows: &mut [u32], file: &mut [u8], place: usize, at: usize) -> usize
    requires lawful_list { LawfulList list }
    requires list_in_bounds { row_width list ≤ length rows.old }
    requires degree_bound { place + entry_size list.degree ≤ at }
    requires at_bound { at < 256 ^ offset_size }
    requires gaps_in_bounds { at + length (ranked list) * row_size list.degree list.top list.gaps ≤ length file.old }
    ensures value { result ≡ at + length (ranked list) * row_size list.degree list.top list.gaps }
    ensures file_after { file.new ≡ over place (entry_bytes (ranked_list list) at) (over at (body_bytes (ranked_list list)) file.old) }
{
    let written = write_body(list, rows, file, at);
    write_entry(file, place, list, written as u32, offset_of(at));
    at + written * sizes::row_size(list.degree, list.top, list.gaps)
}

// Writes list after list, each body behind the one before, from behind the contents on, and each entry behind the one before.
pub fn write_file(floor: u32, entries: &[u32], contents: usize, file: &mut [u8])
    requires lawful_entries { LawfulEntries 0 (entries_of floor entries.now) }
    requires contents_value { contents ≡ behind_lists (map ranked_list (entries_of floor entries.now)) first_entry }
    requires entries_in_bounds { length (ranked_file (entries_of floor entries.now)) ≤ length file.old }
    ensures { file.new ≡ over 0 (ranked_file (entries_of floor entries.now)) file.old }
{
    let mut rows_at_hand = [0u32; NUMBERS_AT_HAND];
    let rows: &mut [u32] = &mut rows_at_hand;
    let n = count(entries);
    file[0] = n as u8;
    let mut place = sizes::FIRST_ENTRY;
    let mut at = contents;
    for k in 0..n {
        let list = entry(floor, entries, k);
        at = write_list(list, rows, file, place, at);
        place += sizes::entry_size(list.degree);
    }
}

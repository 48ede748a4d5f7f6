// Whether entries are of the form: one of them with its body, and all of them, walked by their size.
ghost use Rattle.std.specs.Prelude.{◌≡◌, ◌≤◌, length};
ghost use Rattle.definitions.specs.Catalogue.{first_entry, behind_entries, entry_form, entries_form};
ghost use Rattle.entry_reading.specs.Entries.{as_entry};

use catalogue_bytes::form::BodyForm;
use catalogue_bytes::sizes;
use entry_reading::Entry;

// An entry behind the degree `last`, with its body at `at`.
#[tactic(auto, unfolding(definitions::specs::Catalogue::entry_form))]
pub fn entry_form(s: &[u8], e: Entry, last: u32, at: usize) -> bool
    requires { at ≤ length s.now }
    ensures { result ≡ entry_form s.now (as_entry e) last at }
{
    limits::is_lawful_degree(e.degree)
        && e.degree > last
        && limits::is_lawful_top(e.top)
        && e.offset as usize == at
        && entry_reading::body_size(e) <= s.len() - at
        && body_form::rows_form(
            s,
            e.rows as usize,
            BodyForm {
                degree: e.degree,
                top: e.top,
                gaps: e.gaps,
            },
            at,
        )
}

// The n entries, each body directly behind the one before, from `start` on, and the last ends the file.
pub fn entries_form(s: &[u8], n: usize, start: usize) -> bool
    requires { (behind_entries s.now n first_entry ≤ length s.now) × (start ≤ length s.now) }
    ensures { result ≡ entries_form s.now n first_entry 0 start }
{
    let mut place = sizes::FIRST_ENTRY;
    let mut last: u32 = 0;
    let mut at = start;
    for _ in 0..n {
        let e = entry_reading::entry_at(s, place);
        if !entry_form(s, e, last, at) {
            return false;
        }
        last = e.degree;
        at += entry_reading::body_size(e);
        place += sizes::entry_size(last);
    }
    at == s.len()
}

// Whether bytes are a catalogue: the form of its entries, and of the whole. The bytes come unchecked.
#![tactic(auto)]

pub mod entries;

ghost use Rattle.std.specs.Prelude.{◌≡◌};
ghost use Rattle.definitions.specs.Catalogue.{catalogue_form};

// As many as there are lawful degrees.
pub const MOST_ENTRIES: usize = (limits::LARGEST_DEGREE - limits::LEAST_DEGREE + 1) as usize;

#[tactic(auto, unfolding(definitions::specs::Catalogue::catalogue_form))]
pub fn catalogue_form(s: &[u8]) -> bool
    ensures { result ≡ catalogue_form s.now }
{
    let Some(first) = s.first() else {
        return false;
    };
    let n = usize::from(*first);
    if n > MOST_ENTRIES {
        return false;
    }
    let end = entry_reading::contents_end(s, n);
    end <= s.len() && entries::entries_form(s, n, end)
}

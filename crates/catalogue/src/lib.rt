// A customer's catalogue: open it, look a degree up. The bytes come unchecked, and a file's form is tested once a call.
#![tactic(auto)]

ghost use Rattle.std.specs.Prelude.{◌≡◌};
ghost use Rattle.definitions.specs.Catalogue.{opening, lookup_numbers, lookup_part};

use catalogue_bytes::bytes;
use definitions::{Lookup, Refusal};

// How many degrees the catalogue has.
pub fn open(file: &[u8]) -> Result<u32, Refusal>
    ensures { result ≡ opening file.now }
{
    if !catalogue_form::catalogue_form(file) {
        return Err(Refusal::IllFormedCatalogue);
    }
    Ok(bytes::byte(file, 0))
}

// The top dimension, the kind and the row count of a degree's body.
pub fn lookup(file: &[u8], degree: u32) -> Result<Lookup, Refusal>
    ensures { result ≡ lookup_numbers file.now degree }
{
    let found = catalogue_seek::locate(file, degree)?;
    Ok(Lookup {
        top: found.top,
        gaps: found.gaps,
        rows: found.rows,
    })
}

// A degree's body, a part of the file; empty where the lookup is refused.
pub fn body(file: &[u8], degree: u32) -> &[u8]
    ensures { result.now ≡ lookup_part file.now degree }
{
    match catalogue_seek::locate(file, degree) {
        Ok(found) => {
            let from = found.offset;
            let to = from + found.size;
            &file[from..to]
        }
        Err(_) => &file[0..0],
    }
}

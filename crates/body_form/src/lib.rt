// Whether the rows of a body are of the form. Customers call nothing here.
#![tactic(auto)]

ghost use Rattle.std.specs.Prelude.{◌≡◌, ◌+◌, ◌*◌, ◌≤◌, length};
ghost use Rattle.definitions.specs.Catalogue.{numbers_size, values_size, row_size, row_form};
ghost use Rattle.catalogue_laws.specs.Form.{rows_form};

use catalogue_bytes::form::BodyForm;
use catalogue_bytes::{bytes, sizes};

// Of Δ nothing is asked.
pub fn row_form(s: &[u8], form: BodyForm, at: usize) -> bool
    requires { at + numbers_size form.degree + values_size form.top ≤ length s.now }
    ensures { result ≡ row_form form.degree form.top s.now at }
{
    let width = form.number_size();
    let values = at + sizes::NUMBERS * width;
    bytes::numbers_below(s, at, sizes::NUMBERS, width, form.lead())
        && bytes::bytes_below(s, values, form.value_count(), form.degree + 1)
}

// The rows of the body at `at`.
pub fn rows_form(s: &[u8], rows: usize, form: BodyForm, at: usize) -> bool
    requires { at + rows * row_size form.degree form.top form.gaps ≤ length s.now }
    ensures { result ≡ rows_form form.degree form.top form.gaps s.now at rows }
{
    let size = form.row_size();
    (0..rows).all(|k| row_form(s, form, at + k * size))
}

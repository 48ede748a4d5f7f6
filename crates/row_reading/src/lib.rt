// One row of a body, read from its bytes. Customers call nothing here.
#![tactic(auto)]

ghost use Rattle.std.specs.Prelude.{◌≡◌, ◌+◌, ◌≤◌, length};
ghost use Rattle.definitions.specs.Ranking.{least_top};
ghost use Rattle.definitions.specs.Catalogue.{numbers_size, values_size, row_size, t_at, delta_at, row_at};

use catalogue_bytes::form::BodyForm;
use catalogue_bytes::{bytes, sizes};
use definitions::Row;

// t(s) of the row at a place; 0 above the top dimension.
fn t_at(body: &[u8], form: BodyForm, place: usize, s: u32) -> u32
    requires { (least_top ≤ s) × (place + numbers_size form.degree + values_size form.top ≤ length body.now) }
    ensures { result ≡ t_at form.degree form.top body.now place s }
{
    if s > form.top {
        return 0;
    }
    let first = place + sizes::NUMBERS * form.number_size();
    bytes::byte(body, first + (s - limits::LEAST_TOP) as usize)
}

// Δ of the row at a place; 0 where the rows have none.
#[tactic(auto, using(catalogue_laws::specs::Sizes::row_size_is))]
fn delta_at(body: &[u8], form: BodyForm, place: usize) -> u32
    requires { place + row_size form.degree form.top form.gaps ≤ length body.now }
    ensures { result ≡ delta_at form.degree form.top form.gaps body.now place }
{
    if !form.gaps {
        return 0;
    }
    let first = place + sizes::NUMBERS * form.number_size();
    bytes::byte(body, first + form.value_count())
}

// The row at a place, p with its leading term.
#[tactic(auto, using(catalogue_laws::specs::Sizes::row_size_is), unfolding(definitions::specs::Catalogue::row_at))]
pub fn decode(body: &[u8], form: BodyForm, place: usize) -> Row
    requires { place + row_size form.degree form.top form.gaps ≤ length body.now }
    ensures { result ≡ row_at form.degree form.top form.gaps body.now place }
{
    let width = form.number_size();
    Row {
        p: form.lead() + bytes::number(body, place, width),
        q: bytes::number(body, place + width, width),
        step: bytes::number(body, place + 2 * width, width),
        t3: t_at(body, form, place, 3),
        t4: t_at(body, form, place, 4),
        t5: t_at(body, form, place, 5),
        t6: t_at(body, form, place, 6),
        t7: t_at(body, form, place, 7),
        t8: t_at(body, form, place, 8),
        delta: delta_at(body, form, place),
    }
}

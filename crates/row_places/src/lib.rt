// The places in a row of a list, and how long it is. Customers call nothing here.
#![tactic(auto)]

ghost use Rattle.std.specs.Prelude.{◌≡◌};
ghost use Rattle.definitions.specs.Ranking.{row_width};
ghost use Rattle.row_places.specs.Places.{values_end};

use definitions::Selection;

// In a row p, q and the step stand before the numbers that rank it.
pub const STEP: usize = 2;

pub const RANKS_FROM: usize = STEP + 1;

// The place behind t(T) in a row of the list, where Δ stands if the list has it.
pub fn values_end(list: Selection) -> usize
    ensures { result ≡ values_end list }
{
    list.top as usize + 1
}

// How many numbers a row of the list has.
pub fn width_of(list: Selection) -> usize
    ensures { result ≡ row_width list }
{
    values_end(list) + usize::from(list.gaps)
}

// The number that says T and the kind of rows: in a catalogue's entry, and in an entry for the writer, T + 16 stands for T where the rows have Δ. Customers
// call nothing here.
#![tactic(auto)]

ghost use Rattle.std.specs.Prelude.{◌≡◌, ◌≤◌};
ghost use Rattle.definitions.specs.Ranking.{largest_top};
ghost use Rattle.definitions.specs.Catalogue.{marked_top, gaps_of, top_of};

const GAPS_MARK: u32 = 16;

// What such a number says: whether the rows have Δ,
pub fn has_gaps(number: u32) -> bool
    ensures { result ≡ gaps_of number }
{
    GAPS_MARK <= number
}

// and their top dimension.
pub fn top_of(number: u32) -> u32
    ensures { result ≡ top_of number }
{
    if GAPS_MARK <= number {
        return number - GAPS_MARK;
    }
    number
}

// The number of a top dimension and a kind.
pub fn marked_top(top: u32, gaps: bool) -> u32
    requires { top ≤ largest_top }
    ensures { result ≡ marked_top top gaps }
{
    if gaps {
        return top + GAPS_MARK;
    }
    top
}

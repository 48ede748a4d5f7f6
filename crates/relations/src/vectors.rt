// A packed row reduced by the vectors of those taken, each of which stands in the slot of its degree.
ghost use Rattle.relations.specs.Slots.{Occupied, Apart, Reduced};

// A slot for each degree that a word can have.
pub const SLOTS: usize = 64;

// The row with the vector of its degree added, as long as the mask chooses one.
pub fn reduce(basis: &[u64; SLOTS], mask: u64, row: u64) -> u64
    requires occupied { Occupied basis.now mask }
    requires apart { Apart basis.now mask row }
    ensures { Reduced basis.now mask row result }
{
    let mut v = row;
    let mut place = 63 - u64::leading_zeros(v);
    while mask >> place & 1 == 1 {
        v ^= basis[place as usize];
        place = 63 - u64::leading_zeros(v);
    }
    v
}

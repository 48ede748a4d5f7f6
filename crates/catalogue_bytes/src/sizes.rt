// Sizes and offsets in a catalogue, in bytes. They stand nowhere else in the code.
ghost use Rattle.std.specs.Prelude.{◌≡◌, ◌≤◌};
ghost use Rattle.definitions.specs.Catalogue.{number_size, count_size, entry_size, values_size, row_size};
ghost use Rattle.catalogue_laws.specs.Sizes.{widest};
ghost use Rattle.number_laws.specs.Bounds.{LawfulTop};

// The contents begin behind the first byte, which says how many entries there are.
pub const FIRST_ENTRY: usize = 1;

// In an entry, behind the degree: T with the kind, and behind these the row count.
pub const TOP_OFFSET: usize = 1;

pub const COUNT_OFFSET: usize = 2;

// The offset of a body, at the end of its entry.
pub const OFFSET_SIZE: usize = 4;

// A row begins with p without its leading term, q and the step.
pub const NUMBERS: usize = 3;

// Each of these three.
#[tactic(auto, unfolding(definitions::specs::Catalogue::number_size))]
pub fn number_size(degree: u32) -> usize
    ensures { (result ≡ number_size degree) × (result ≤ widest) }
{
    2
}

// The row count in an entry.
#[tactic(auto, unfolding(definitions::specs::Catalogue::count_size))]
pub fn count_size(degree: u32) -> usize
    ensures { (result ≡ count_size degree) × (result ≤ widest) }
{
    2
}

#[tactic(auto, unfolding(definitions::specs::Catalogue::entry_size))]
pub fn entry_size(degree: u32) -> usize
    ensures { result ≡ entry_size degree }
{
    COUNT_OFFSET + count_size(degree) + OFFSET_SIZE
}

// t(3) .. t(T), a byte each.
pub fn value_count(top: u32) -> usize
    requires { LawfulTop top }
    ensures { result ≡ values_size top }
{
    top as usize + 1 - limits::LEAST_TOP as usize
}

// With Δ a row has one byte more. Three numbers and no BodyForm: most callers hold a list or an entry, and need this one size of it.
#[tactic(auto, unfolding(definitions::specs::Catalogue::row_size))]
pub fn row_size(degree: u32, top: u32, gaps: bool) -> usize
    requires { LawfulTop top }
    ensures { result ≡ row_size degree top gaps }
{
    NUMBERS * number_size(degree) + value_count(top) + gaps as usize
}

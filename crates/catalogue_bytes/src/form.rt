// The form of a body, from which the sizes in its rows follow.
ghost use Rattle.std.specs.Prelude.{◌≡◌, ◌≤◌, ◌^◌};
ghost use Rattle.definitions.specs.Catalogue.{number_size, values_size, row_size};
ghost use Rattle.catalogue_laws.specs.Sizes.{widest};
ghost use Rattle.number_laws.specs.Bounds.{LawfulDegree, LawfulTop};

use super::sizes;

// A lawful degree, a lawful T, and whether the rows have Δ.
#[derive(Clone, Copy)]
pub struct BodyForm {
    pub degree: u32,
    pub top: u32,
    pub gaps: bool,
    pub ghost degree_is_lawful: { LawfulDegree degree },
    pub ghost top_is_lawful: { LawfulTop top },
}

impl BodyForm {
    // p's leading term, which a row leaves out.
    pub fn lead(self) -> u32
        ensures { result ≡ 2 ^ self.degree }
    {
        1 << self.degree
    }

    // Each of the three numbers that a row begins with.
    pub fn number_size(self) -> usize
        ensures { (result ≡ number_size self.degree) × (result ≤ widest) }
    {
        sizes::number_size(self.degree)
    }

    // t(3) .. t(T), a byte each.
    pub fn value_count(self) -> usize
        ensures { result ≡ values_size self.top }
    {
        sizes::value_count(self.top)
    }

    pub fn row_size(self) -> usize
        ensures { result ≡ row_size self.degree self.top self.gaps }
    {
        sizes::row_size(self.degree, self.top, self.gaps)
    }
}

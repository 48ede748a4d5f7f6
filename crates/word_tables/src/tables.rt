// Tables of the two functions of a state that the words come from: the next state and the word. Both are additive, so the value at a state is
// the sum of two entries, one for each half of its digits.
ghost use Rattle.std.specs.Prelude.{◌≡◌, replicate};
ghost use Rattle.number_laws.specs.Bounds.{LawfulDegree};
ghost use Rattle.fraction_laws.specs.WellFormed.{WellFormed};
ghost use Rattle.word_tables.specs.Tables.{size};
ghost use Rattle.word_tables.specs.Filling.{Unit, Filled};

use crate::word;
use additive_tables::spread;
use polynomial::residues::Residues;

// Half of the digits that a state has at most, and one entry for each of their values.
const HALF_DIGITS: u32 = (limits::LARGEST_DEGREE + 1) / 2;

pub const SIZE: usize = 1 << HALF_DIGITS;

// The units of the two halves.
pub const LOWER_UNIT: u32 = 1;

pub const UPPER_UNIT: u32 = SIZE as u32;

// The values of both functions at the multiples of one unit.
#[derive(Drop)]
pub struct Tables {
    pub next: [u32; SIZE],
    pub word: [u32; SIZE],
}

impl Tables {
    // Tables with no value yet. They are filled where they lie, since handing filled ones out would copy them on the stack.
    pub fn empty() -> Tables
        ensures { (result.next ≡ replicate size 0) × (result.word ≡ replicate size 0) }
    {
        Tables {
            next: [0; SIZE],
            word: [0; SIZE],
        }
    }

    // Entry j of each table is the function's value at j times the unit, where that is a residue. The tables double: one value is computed for each.
    pub fn fill(&mut self, m: u32, p: u32, q: u32, unit: u32)
        requires lawful_degree { LawfulDegree m }
        requires well_formed { WellFormed m p q }
        requires unit { Unit unit }
        ensures { Filled m p q unit size self.new.next self.new.word }
    {
        let residues = Residues::modulo(m, p);
        self.next[0] = 0;
        self.word[0] = 0;
        let mut n: usize = 1;
        while n < SIZE {
            let y = n as u32 * unit;
            if y >= residues.lead {
                return;
            }
            spread(&mut self.next, 0, n, residues.product(q, y));
            spread(&mut self.word, 0, n, word::word_of(m, p, y));
            n *= 2;
        }
    }
}

// One word: its state, and the digits of a state.
ghost use Rattle.std.specs.Prelude.{◌≡◌, ◌^◌, ◌<◌};
ghost use Rattle.definitions.specs.Points.{state, leading, word_digits};
ghost use Rattle.number_laws.specs.Bounds.{LawfulDegree};
ghost use Rattle.polynomial_laws.specs.Degree.{HasDegree};
ghost use Rattle.fraction_laws.specs.WellFormed.{WellFormed};

use polynomial::residues::Residues;

// The state of word i: q to that power.
pub fn state_at(m: u32, p: u32, q: u32, i: u32) -> u32
    requires lawful_degree { LawfulDegree m }
    requires well_formed { WellFormed m p q }
    ensures { (result ≡ state p q i) × (result < 2 ^ m) }
{
    Residues::modulo(m, p).power(q, i)
}

const WORD_DIGITS: u32 = 32;

// The first 32 digits of y/p by long division, the first as the highest bit.
pub fn word_of(m: u32, p: u32, y: u32) -> u32
    requires lawful_degree { LawfulDegree m }
    requires has_degree { HasDegree p m }
    requires y_bound { y < 2 ^ m }
    ensures { result ≡ leading p word_digits y }
{
    let residues = Residues::modulo(m, p);
    let mut word: u32 = 0;
    let mut rest = y;
    for _ in 0..WORD_DIGITS {
        word = word * 2 + (rest * 2 >> m);
        rest = residues.times_x(rest);
    }
    word
}

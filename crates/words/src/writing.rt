// The words from an index on.
ghost use Rattle.std.specs.Prelude.{◌≡◌, length};
ghost use Rattle.definitions.specs.Points.{words};
ghost use Rattle.number_laws.specs.Bounds.{LawfulDegree};
ghost use Rattle.fraction_laws.specs.WellFormed.{WellFormed};

use polynomial::residues::Residues;
use word_tables::tables::Tables;
use word_tables::{tables, word};

// From so many words on the tables cost less than they save.
const MANY: usize = 16;

// Words first, first + 1, .. over the whole slice.
pub fn write(m: u32, p: u32, q: u32, first: u32, out: &mut [u32])
    requires lawful_degree { LawfulDegree m }
    requires well_formed { WellFormed m p q }
    ensures { out.new ≡ words p q first (length out.old) }
{
    if out.len() < MANY {
        write_few(m, p, q, first, out);
    } else {
        write_many(m, p, q, first, out);
    }
}

// Each word by long division, each next state times q.
fn write_few(m: u32, p: u32, q: u32, first: u32, out: &mut [u32])
    requires lawful_degree { LawfulDegree m }
    requires well_formed { WellFormed m p q }
    ensures { out.new ≡ words p q first (length out.old) }
{
    let residues = Residues::modulo(m, p);
    let mut y = word::state_at(m, p, q, first);
    for word in out {
        *word = word::word_of(m, p, y);
        y = residues.product(q, y);
    }
}

// The same by tables: two entries give the word, two the next state. It is not put into its caller, so that the tables are not on the stack while the pair
// is judged.
#[inline(never)]
fn write_many(m: u32, p: u32, q: u32, first: u32, out: &mut [u32])
    requires lawful_degree { LawfulDegree m }
    requires well_formed { WellFormed m p q }
    ensures { out.new ≡ words p q first (length out.old) }
{
    let mut y = word::state_at(m, p, q, first);
    let mut lower = Tables::empty();
    lower.fill(m, p, q, tables::LOWER_UNIT);
    let mut upper = Tables::empty();
    upper.fill(m, p, q, tables::UPPER_UNIT);
    for word in out {
        let low = (y % tables::UPPER_UNIT) as usize;
        let high = (y / tables::UPPER_UNIT) as usize;
        *word = lower.word[low] ^ upper.word[high];
        y = lower.next[low] ^ upper.next[high];
    }
}

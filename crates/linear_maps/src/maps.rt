// Times c and squaring, modulo p, as tables. The digits of a residue are taken in blocks, and its image is the sum of one entry for each block.
ghost use Rattle.std.specs.Prelude.{◌≡◌, ℕ, ◌+◌, ◌^◌, ◌≤◌, ◌<◌, length, get_or};
ghost use Rattle.definitions.specs.Polynomial.{prod, rem};
ghost use Rattle.definitions.specs.Generator.{largest_degree};
ghost use Rattle.polynomial.specs.Powers.{Step};
ghost use Rattle.linear_maps.specs.Maps.{block, image_of, Maps};
ghost use Rattle.linear_maps.specs.Filling.{Doubling, Block};

use additive_tables::spread;
use polynomial::residues::Residues;

// As many digits that four blocks are enough, and one entry for each of their values.
const BLOCK_DIGITS: u32 = (limits::LARGEST_DEGREE + 3) / 4;

const BLOCK: usize = 1 << BLOCK_DIGITS;

pub const ENTRIES: usize = 4 * BLOCK;

// The table of times c: the image of the next digit is x times that of a digit,
pub fn times_map(residues: Residues, c: u32) -> [u32; ENTRIES]
    requires lead_bound { residues.lead ≤ 2 ^ largest_degree }
    requires c_lt_lead { c < residues.lead }
    ensures { Maps (λ a. rem (prod c a) residues.p) residues.lead result }
{
    fill(residues, c, |image| residues.times_x(image))
}

// and that of squaring: here once more.
pub fn square_map(residues: Residues) -> [u32; ENTRIES]
    requires lead_bound { residues.lead ≤ 2 ^ largest_degree }
    ensures { Maps (λ a. rem (prod a a) residues.p) residues.lead result }
{
    fill(
        residues,
        1,
        |image| residues.times_x(residues.times_x(image)),
    )
}

// The image of a residue: one entry for each block of its digits.
pub fn image(table: &[u32; ENTRIES], a: u32) -> u32
    ensures { result ≡ image_of table.now a }
{
    let digits = a as usize;
    let low = table[digits % BLOCK] ^ table[BLOCK + digits / BLOCK % BLOCK];
    let high = digits / BLOCK / BLOCK;
    low ^ table[2 * BLOCK + high % BLOCK] ^ table[3 * BLOCK + high / BLOCK % BLOCK]
}

// The table from the image of 1 on, block by block as far as residues have digits; `next` gives the image of the next digit, from that of a digit. The
// entries behind are never asked for but the first of a block, which is 0. It is not put into its callers, which would then hold the table twice.
#[inline(never)]
fn fill<N: Fn(u32) -> u32>(residues: Residues, first: u32, next: N) -> [u32; ENTRIES]
    requires lead_bound { residues.lead ≤ 2 ^ largest_degree }
    requires first_lt_lead { first < residues.lead }
    requires next { Step (N.pre next) (N.post next) residues.lead }
    ensures { (f : ℕ → ℕ) → Doubling (N.post next) f residues.lead → first ≡ f 1 → Maps f residues.lead result }
{
    let mut table: [u32; ENTRIES] = [0; ENTRIES];
    let mut image = first;
    let mut base: usize = 0;
    let mut unit: u32 = 1;
    // While: after a `for` over `chunks_exact_mut` a proof knows the length of the table and not what the chunks hold.
    while unit < residues.lead {
        image = fill_block(&mut table, base, residues, image, &next);
        base += BLOCK;
        unit *= BLOCK as u32;
    }
    table
}

// One block from `base` on, from the image of its lowest digit on; answers the image of the next block's lowest digit.
fn fill_block<N: Fn(u32) -> u32>(
    table: &mut [u32],
    base: usize,
    residues: Residues,
    first: u32,
    next: &N,
) -> u32
    requires first_lt_lead { first < residues.lead }
    requires block_in_bounds { (base + block ≤ length table.old) × (get_or table.old base 0 ≡ 0) }
    requires next { Step (N.pre next.now) (N.post next.now) residues.lead }
    ensures { Block (N.post next.now) residues.lead base first block table.old table.new result }
{
    let mut image = first;
    let mut n: usize = 1;
    while n < BLOCK {
        spread(table, base, n, image);
        image = next(image);
        n *= 2;
    }
    image
}

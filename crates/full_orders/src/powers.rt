// Powers modulo p by look-ups: squares are looked up, and so is times q; times x is a shift.
ghost use Rattle.std.specs.Prelude.{◌≡◌, ◌^◌, ◌<◌};
ghost use Rattle.definitions.specs.Polynomial.{prod, rem};
ghost use Rattle.linear_maps.specs.Maps.{Maps};
ghost use Rattle.full_orders.specs.Tabled.{TabledPower};

use linear_maps::maps;
use polynomial::residues::{Residues, power_by};

// x to the e,
pub fn pow_x(residues: Residues, e: u32, squares: &[u32; maps::ENTRIES]) -> u32
    requires maps { Maps (λ a. rem (prod a a) residues.p) residues.lead squares.now }
    ensures { (result ≡ rem (2 ^ e) residues.p) × (result < residues.lead) }
{
    power_by(e, |y| maps::image(squares, y), |y| residues.times_x(y))
}

// and q to the e, for the q and the p whose tables are given.
pub fn pow_q(e: u32, products: &[u32; maps::ENTRIES], squares: &[u32; maps::ENTRIES]) -> u32
    ensures { TabledPower products.now squares.now e result }
{
    power_by(e, |y| maps::image(squares, y), |y| maps::image(products, y))
}

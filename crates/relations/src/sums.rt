// The lightest of the sums of a vector and of the smaller ones among the slots.
ghost use Rattle.std.specs.Prelude.{◌≡◌, ◌%◌, ◌≤◌};
ghost use Rattle.relations.specs.Slots.{Summed, Scanning};

use crate::vectors::SLOTS;
use crate::weight::weight_of;

// The least of `least` and of the weights of x and of its sums with vectors that the mask chooses: first without the largest of them, then with it.
pub fn lightest_sum(x: u64, mask: u64, least: u32, starts: u64, basis: &[u64; SLOTS]) -> u32
    requires { starts % 2 ≡ 1 }
    ensures { Summed starts x mask basis.now least result }
{
    if mask == 0 {
        return u32::min(least, weight_of(starts, x));
    }
    let place = 63 - u64::leading_zeros(mask);
    let rest = mask ^ (1 << place);
    let found = lightest_sum(x, rest, least, starts, basis);
    let vector = basis[place as usize];
    lightest_sum(x ^ vector, rest, found, starts, basis)
}

// The same of the vectors with no more digits above their labels than given, where v itself has no more: other sums with v have more.
pub fn scan(v: u64, mask: u64, least: u32, digits: u32, starts: u64, basis: &[u64; SLOTS]) -> u32
    requires { (starts % 2 ≡ 1) × (digits ≤ 30) }
    ensures { Scanning starts v mask digits basis.now least result }
{
    let limit = 1 << (digits + 32);
    if v < limit {
        return lightest_sum(v, mask % limit, least, starts, basis);
    }
    least
}

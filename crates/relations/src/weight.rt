// What a relation weighs, read off a packed sum: the sum of the digit rows stands above its label, whose digits say which rows it has.
ghost use Rattle.std.specs.Prelude.{◌≡◌, ◌%◌};
ghost use Rattle.relations.specs.Slots.{Weighed};

// Labels are smaller: each has 32 digits at most.
pub const LABELS: u64 = 4294967296;

// The digits of the sum, and of each coordinate the digit rows up to the newest used. `starts` has a 1 at the place of each coordinate's first row.
pub fn weight_of(starts: u64, sum: u64) -> u32
    requires { starts % 2 ≡ 1 }
    ensures { Weighed starts sum result }
{
    let mut weight = 64 - u64::leading_zeros(sum >> 32);
    let mut label = sum % LABELS;
    while label != 0 {
        let newest = 63 - u64::leading_zeros(label);
        let first = 63 - u64::leading_zeros(starts % (2 << newest));
        weight += newest + 1 - first;
        label = label % (1 << first);
    }
    weight
}

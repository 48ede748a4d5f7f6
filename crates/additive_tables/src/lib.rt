// Tables of additive functions. A table doubles: the entries behind the first n are those with one value added. Customers call nothing here.
#![tactic(auto)]

ghost use Rattle.std.specs.Prelude.{◌+◌, ◌≤◌, length};
ghost use Rattle.additive_tables.specs.Spreading.{Spread};

// The n entries from `base` on, each with the value added, behind themselves.
pub fn spread(table: &mut [u32], base: usize, n: usize, value: u32)
    requires { base + n + n ≤ length table.old }
    ensures { Spread base n value table.old table.new }
{
    for i in 0..n {
        table[base + n + i] = table[base + i] ^ value;
    }
}

// A digit row reduced by the vectors of those taken.
ghost use Rattle.std.specs.Prelude.{◌≡◌, length};
ghost use Rattle.net_laws.specs.Reduction.{reduce as reduceAll};
ghost use Rattle.digit_rows.specs.Basis.{newest};

// The room for vectors: as many as a word has digits, and so more than a residue has.
pub const BASIS_ROOM: usize = 32;

// A digit row reduced by the vectors of those taken, the oldest vector first: each is added where that makes it smaller.
pub fn reduce(basis: &[u32], digits: u32) -> u32
    ensures { result ≡ reduceAll (newest basis.now (length basis.now)) digits }
{
    let mut v = digits;
    for i in 0..basis.len() {
        let sum = v ^ basis[i];
        if sum < v {
            v = sum;
        }
    }
    v
}

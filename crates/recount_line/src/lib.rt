// What the program `recount` prints for a line: the t-value of a pair by both engines, or a refusal. The text is put at a place of a buffer: where it
// fits, the answer is the place behind it; where it does not, nothing is written and the answer is the place itself.
#![tactic(auto)]

ghost use Rattle.std.specs.Prelude.{◌≡◌};
ghost use Rattle.definitions.specs.Recount.{pair_text, recount};
ghost use Rattle.slice_laws.specs.Place.{placed, behind};

// A line's numbers: degree, p, q and dimension.
const NUMBERS: usize = 4;

// The refusal that belongs to programs alone.
const UNREADABLE: u32 = 0;

// As many bytes as a line that is printed has at most.
pub const TEXT_ROOM: usize = 34;

// The line that is printed for a line that is read; what follows a newline is not read.
pub fn put_recount(out: &mut [u8], at: usize, input: &[u8]) -> usize
    ensures value { result ≡ behind at (recount input.now) out.old }
    ensures out_after { out.new ≡ placed at (recount input.now) out.old }
{
    let mut asked = [0u32; NUMBERS];
    if line::read_numbers(input, &mut asked) != NUMBERS {
        return list_lines::put_refused(out, at, UNREADABLE);
    }
    put_pair(out, at, asked[0], asked[1], asked[2], asked[3])
}

// The counter decides on a refusal: what it does not refuse, the quick engine does not refuse either.
fn put_pair(out: &mut [u8], at: usize, degree: u32, p: u32, q: u32, dimension: u32) -> usize
    ensures value { result ≡ behind at (pair_text degree p q dimension) out.old }
    ensures out_after { out.new ≡ placed at (pair_text degree p q dimension) out.old }
{
    match counter::count_t_value(degree, p, q, dimension) {
        Ok(count) => {
            let quick = net::t_value(degree, p, q, dimension).unwrap();
            engines_line::put_both(out, at, quick, count)
        }
        Err(refusal) => {
            let number = answers::refusal_number(refusal);
            list_lines::put_refused(out, at, number)
        }
    }
}

// The line that is asked with: its numbers, and the defaults where it has fewer. Customers call `listing::read_line`.
#![tactic(auto)]

ghost use Rattle.std.specs.Prelude.{◌≡◌};
ghost use Rattle.definitions.specs.Listing.{read_line};

use definitions::Asked;

// What is asked where the line does not say it; T and the floor as in document 02.
const DEFAULT_TOP: u32 = 8;

const DEFAULT_SIZE: u32 = 50;

const DEFAULT_FLOOR: u32 = 32;

// The numbers that the line has take the place of the first defaults; a degree has no default, as a line has at least one number.
pub fn read_line(input: &[u8]) -> Option<Asked>
    ensures { result ≡ read_line input.now }
{
    let mut asked = [0, DEFAULT_TOP, DEFAULT_SIZE, DEFAULT_FLOOR];
    if line::read_numbers(input, &mut asked) == 0 {
        return None;
    }
    Some(Asked {
        degree: asked[0],
        top: asked[1],
        size: asked[2],
        floor: asked[3],
    })
}

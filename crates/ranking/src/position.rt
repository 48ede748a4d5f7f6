// Whether a position can be read from.
ghost use Rattle.std.specs.Prelude.{◌≡◌};
ghost use Rattle.number_laws.specs.Bounds.{LawfulDegree};
ghost use Rattle.ranking.specs.Positions.{position_verdict};

use definitions::{Position, Refusal};

// Why a position is refused, as its pair is, or that it is not.
pub fn check_position(degree: u32, floor: u32, position: Position) -> Result<(), Refusal>
    requires { LawfulDegree degree }
    ensures { result ≡ position_verdict degree floor position }
{
    match position {
        Position::Start => Ok(()),
        Position::After(p, q) => verdicts::check_pair(degree, floor, p, q),
    }
}

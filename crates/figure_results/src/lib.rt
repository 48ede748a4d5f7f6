// The figures of a pair, its t-value and Δ, as a struct that C takes by value: the refusal's number, 0 where there is none, and the figure, 0 where there is
// none.
// A number of the refusal beside the values, and structs alike: the C interface has them so.
#![tactic(auto)]

ghost use Rattle.std.specs.Prelude.{◌≡◌};
ghost use Rattle.definitions.specs.Answers.{uniformity_values, gap_sum_values};
ghost use Rattle.figure_results.specs.Results.{t_value_result, gaps_result};

use definitions::Refusal;

// A t-value.
#[repr(C)]
#[derive(Clone, Copy)]
pub struct FenyurkaTValue {
    pub refusal: u32,
    pub t: u32,
}

impl From<Result<u32, Refusal>> for FenyurkaTValue {
    ghost from_gives = { λ answer r. r ≡ t_value_result (uniformity_values answer) };

    fn from(answer: Result<u32, Refusal>) -> FenyurkaTValue {
        match answer {
            Ok(t) => FenyurkaTValue { refusal: 0, t },
            Err(refusal) => FenyurkaTValue {
                refusal: answers::refusal_number(refusal),
                t: 0,
            },
        }
    }
}

// The sum of resolution gaps Δ.
#[repr(C)]
#[derive(Clone, Copy)]
pub struct FenyurkaGaps {
    pub refusal: u32,
    pub delta: u32,
}

impl From<Result<u32, Refusal>> for FenyurkaGaps {
    ghost from_gives = { λ answer r. r ≡ gaps_result (gap_sum_values answer) };

    fn from(answer: Result<u32, Refusal>) -> FenyurkaGaps {
        match answer {
            Ok(delta) => FenyurkaGaps { refusal: 0, delta },
            Err(refusal) => FenyurkaGaps {
                refusal: answers::refusal_number(refusal),
                delta: 0,
            },
        }
    }
}

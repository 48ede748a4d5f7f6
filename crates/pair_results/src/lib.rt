// What judging and the quotient test answer, as a struct that C takes by value: the refusal's number, 0 where there is none; `quotient_degree` of a judgement, the K
// that refusal 5 carries, 0 for any other; and the answer's values, 0 where it has none.
// A number of the refusal beside the values, and structs alike: the C interface has them so.
#![tactic(auto)]

ghost use Rattle.std.specs.Prelude.{◌≡◌};
ghost use Rattle.definitions.specs.Answers.{judgement_values, quotient_test_values};
ghost use Rattle.pair_results.specs.Results.{judgement_result, quotients_result};

use definitions::{QuotientDegrees, Refusal};

// A pair's step.
#[repr(C)]
#[derive(Clone, Copy)]
pub struct FenyurkaJudgement {
    pub refusal: u32,
    pub quotient_degree: u32,
    pub step: u32,
}

impl From<Result<u32, Refusal>> for FenyurkaJudgement {
    ghost from_gives = { λ answer r. r ≡ judgement_result (judgement_values answer) };

    fn from(answer: Result<u32, Refusal>) -> FenyurkaJudgement {
        match answer {
            Ok(step) => FenyurkaJudgement {
                refusal: 0,
                quotient_degree: 0,
                step,
            },
            Err(refusal) => FenyurkaJudgement {
                refusal: answers::refusal_number(refusal),
                quotient_degree: answers::refusal_degree(refusal),
                step: 0,
            },
        }
    }
}

// The largest degree among a pair's partial quotients, and the degree of the common factor.
#[repr(C)]
#[derive(Clone, Copy)]
pub struct FenyurkaQuotients {
    pub refusal: u32,
    pub quotient_degree: u32,
    pub common_degree: u32,
}

impl From<Result<QuotientDegrees, Refusal>> for FenyurkaQuotients {
    ghost from_gives = { λ answer r. r ≡ quotients_result (quotient_test_values answer) };

    fn from(answer: Result<QuotientDegrees, Refusal>) -> FenyurkaQuotients {
        match answer {
            Ok(degrees) => FenyurkaQuotients {
                refusal: 0,
                quotient_degree: degrees.quotient,
                common_degree: degrees.common,
            },
            Err(refusal) => FenyurkaQuotients {
                refusal: answers::refusal_number(refusal),
                quotient_degree: 0,
                common_degree: 0,
            },
        }
    }
}

// What is answered beside a lent slice, as a struct that C takes by value: the refusal's number, 0 where there is none; `quotient_degree`, the K that
// refusal 5 carries, 0 for any other; and the answer's values, 0 where it has none.
// A number of the refusal beside the values, and structs alike: the C interface has them so.
#![tactic(auto)]

ghost use Rattle.std.specs.Prelude.{◌≡◌};
ghost use Rattle.definitions.specs.Answers.{page_values, points_values};
ghost use Rattle.slice_results.specs.Results.{page_result, points_result};

use definitions::{Page, Refusal};

// A page: whether a further row exists, and how many rows were written.
#[repr(C)]
#[derive(Clone, Copy)]
pub struct FenyurkaPage {
    pub refusal: u32,
    pub quotient_degree: u32,
    pub more: u32,
    pub count: usize,
}

impl From<Result<Page, Refusal>> for FenyurkaPage {
    ghost from_gives = { λ answer r. r ≡ page_result (page_values answer) };

    fn from(answer: Result<Page, Refusal>) -> FenyurkaPage {
        match answer {
            Ok(page) => FenyurkaPage {
                refusal: 0,
                quotient_degree: 0,
                more: u32::from(page.further),
                count: page.rows,
            },
            Err(refusal) => FenyurkaPage {
                refusal: answers::refusal_number(refusal),
                quotient_degree: answers::refusal_degree(refusal),
                more: 0,
                count: 0,
            },
        }
    }
}

// How many words were written.
#[repr(C)]
#[derive(Clone, Copy)]
pub struct FenyurkaPoints {
    pub refusal: u32,
    pub quotient_degree: u32,
    pub count: usize,
}

impl From<Result<usize, Refusal>> for FenyurkaPoints {
    ghost from_gives = { λ answer r. r ≡ points_result (points_values answer) };

    fn from(answer: Result<usize, Refusal>) -> FenyurkaPoints {
        match answer {
            Ok(words) => FenyurkaPoints {
                refusal: 0,
                quotient_degree: 0,
                count: words,
            },
            Err(refusal) => FenyurkaPoints {
                refusal: answers::refusal_number(refusal),
                quotient_degree: answers::refusal_degree(refusal),
                count: 0,
            },
        }
    }
}

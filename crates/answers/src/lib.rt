// What refusals say, as documents 01 and 02 have it: their numbers, and the K that 5 carries.
#![tactic(auto)]

ghost use Rattle.std.specs.Prelude.{◌≡◌};
ghost use Rattle.definitions.specs.Answers.{refusal_number, refusal_degree};

use definitions::Refusal;

// The number of a refusal.
pub fn refusal_number(refusal: Refusal) -> u32
    ensures { result ≡ refusal_number refusal }
{
    match refusal {
        Refusal::WrongDegree => 1,
        Refusal::WrongDimension => 2,
        Refusal::IllFormedPair => 3,
        Refusal::NotPrimitive => 4,
        Refusal::QuotientNotLinear(_) => 5,
        Refusal::StepNotCoprime => 6,
        Refusal::ShortSlice => 7,
        Refusal::BeyondPeriod => 8,
        Refusal::IllFormedCatalogue => 9,
        Refusal::DegreeMissing => 10,
        Refusal::StepBelowFloor => 11,
        Refusal::WrongFloor => 12,
        Refusal::NotAscending => 13,
        Refusal::FileTooLong => 14,
    }
}

// What a refusal carries: the largest degree among the partial quotients where it is 5, else 0.
pub fn refusal_degree(refusal: Refusal) -> u32
    ensures { result ≡ refusal_degree refusal }
{
    match refusal {
        Refusal::QuotientNotLinear(degree) => degree,
        _ => 0,
    }
}

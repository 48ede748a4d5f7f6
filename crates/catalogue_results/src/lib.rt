// Answers about catalogues as structs that C takes by value: an opening, a degree's body, a file that was written.
// A number of the refusal beside the values, and structs alike: the C interface has them so.
#![tactic(auto)]

ghost use Rattle.std.specs.Prelude.{◌≡◌};
ghost use Rattle.definitions.specs.Answers.{opening_values, file_values};
ghost use Rattle.catalogue_results.specs.Results.{catalogue_result, body_result, file_result};

use catalogue_seek::BodyPlace;
use definitions::Refusal;

// How many degrees a catalogue has.
#[repr(C)]
#[derive(Clone, Copy)]
pub struct FenyurkaCatalogue {
    pub refusal: u32,
    pub entries: u32,
}

impl From<Result<u32, Refusal>> for FenyurkaCatalogue {
    ghost from_gives = { λ answer r. r ≡ catalogue_result (opening_values answer) };

    fn from(answer: Result<u32, Refusal>) -> FenyurkaCatalogue {
        match answer {
            Ok(entries) => FenyurkaCatalogue {
                refusal: 0,
                entries,
            },
            Err(refusal) => FenyurkaCatalogue {
                refusal: answers::refusal_number(refusal),
                entries: 0,
            },
        }
    }
}

// A degree's body: its top dimension, whether its rows have Δ, and its row count; in bytes, its place in the file, its length and the size of a row.
#[repr(C)]
#[derive(Clone, Copy)]
pub struct FenyurkaBody {
    pub refusal: u32,
    pub top: u32,
    pub gaps: u32,
    pub rows: u32,
    pub offset: usize,
    pub length: usize,
    pub row_size: usize,
}

impl From<Result<BodyPlace, Refusal>> for FenyurkaBody {
    ghost from_gives = { λ answer r. r ≡ body_result answer };

    fn from(answer: Result<BodyPlace, Refusal>) -> FenyurkaBody {
        match answer {
            Ok(found) => FenyurkaBody {
                refusal: 0,
                top: found.top,
                gaps: u32::from(found.gaps),
                rows: found.rows,
                offset: found.offset,
                length: found.size,
                row_size: found.stride,
            },
            Err(refusal) => FenyurkaBody {
                refusal: answers::refusal_number(refusal),
                top: 0,
                gaps: 0,
                rows: 0,
                offset: 0,
                length: 0,
                row_size: 0,
            },
        }
    }
}

// How many bytes were written.
#[repr(C)]
#[derive(Clone, Copy)]
pub struct FenyurkaFile {
    pub refusal: u32,
    pub length: usize,
}

impl From<Result<usize, Refusal>> for FenyurkaFile {
    ghost from_gives = { λ answer r. r ≡ file_result (file_values answer) };

    fn from(answer: Result<usize, Refusal>) -> FenyurkaFile {
        match answer {
            Ok(length) => FenyurkaFile { refusal: 0, length },
            Err(refusal) => FenyurkaFile {
                refusal: answers::refusal_number(refusal),
                length: 0,
            },
        }
    }
}

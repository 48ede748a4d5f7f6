// The archive for C: each public call under its C name, as include/fenyurka.h declares it, with the clauses of crate `interface`, which answers it.
// Structs go in and out by value, and only slices are behind pointers. Twice, here and in `interface`: a static library is no crate that another stands on,
// and `demands` cites the contracts.
#![tactic(auto)]

ghost use Rattle.std.specs.Prelude.{◌≡◌};
ghost use Rattle.definitions.specs.Answers.{judgement_values, quotient_test_values, uniformity_values, gap_sum_values, page_values, points_values};
ghost use Rattle.definitions.specs.Answers.{opening_values, file_values};
ghost use Rattle.definitions.specs.Calls.{judgement, quotient_test, uniformity, counted, gap_sum, page_answer, page_slice, points_answer, points_slice};
ghost use Rattle.definitions.specs.Catalogue.{opening};
ghost use Rattle.definitions.specs.Writing.{file_answer, file_buffer};
ghost use Rattle.definitions.specs.declared.Position.{Position};
ghost use Rattle.pair_results.specs.Results.{judgement_result, quotients_result};
ghost use Rattle.figure_results.specs.Results.{t_value_result, gaps_result};
ghost use Rattle.slice_results.specs.Results.{page_result, points_result};
ghost use Rattle.catalogue_results.specs.Results.{catalogue_result, file_result};
ghost use Rattle.interface.specs.Requests.{page_of, row_at_place};
ghost use Rattle.interface.specs.Located.{located};

use catalogue_results::{FenyurkaBody, FenyurkaCatalogue, FenyurkaFile};
use figure_results::{FenyurkaGaps, FenyurkaTValue};
use interface::FenyurkaList;
use pair_results::{FenyurkaJudgement, FenyurkaQuotients};
use row_results::FenyurkaRow;
use slice_results::{FenyurkaPage, FenyurkaPoints};

// The step of a pair, at least the floor.
#[unsafe(no_mangle)]
pub extern "C" fn fenyurka_judge(degree: u32, floor: u32, p: u32, q: u32) -> FenyurkaJudgement
    ensures { result ≡ judgement_result (judgement_values (judgement degree floor p q)) }
{
    interface::fenyurka_judge(degree, floor, p, q)
}

// How bad a pair's quotients are.
#[unsafe(no_mangle)]
pub extern "C" fn fenyurka_quotients(degree: u32, p: u32, q: u32) -> FenyurkaQuotients
    ensures { result ≡ quotients_result (quotient_test_values (quotient_test degree p q)) }
{
    interface::fenyurka_quotients(degree, p, q)
}

// The t-value of a pair in one dimension.
#[unsafe(no_mangle)]
pub extern "C" fn fenyurka_t_value(degree: u32, p: u32, q: u32, dimension: u32) -> FenyurkaTValue
    ensures { result ≡ t_value_result (uniformity_values (uniformity degree p q dimension)) }
{
    interface::fenyurka_t_value(degree, p, q, dimension)
}

// The same by the plain counter, for degrees 2 to 8.
#[unsafe(no_mangle)]
pub extern "C" fn fenyurka_count_t_value(
    degree: u32,
    p: u32,
    q: u32,
    dimension: u32,
) -> FenyurkaTValue
    ensures { result ≡ t_value_result (uniformity_values (counted degree p q dimension)) }
{
    interface::fenyurka_count_t_value(degree, p, q, dimension)
}

// The sum of resolution gaps of a pair.
#[unsafe(no_mangle)]
pub extern "C" fn fenyurka_sum_of_gaps(degree: u32, p: u32, q: u32) -> FenyurkaGaps
    ensures { result ≡ gaps_result (gap_sum_values (gap_sum degree p q)) }
{
    interface::fenyurka_sum_of_gaps(degree, p, q)
}

// The first rows of a ranked list: how many, and whether a further row exists.
#[unsafe(no_mangle)]
pub extern "C" fn fenyurka_first_page(list: FenyurkaList, rows: &mut [u32]) -> FenyurkaPage
    ensures value { result ≡ page_result (page_values (page_answer (page_of list Position.Start) rows.old)) }
    ensures rows_after { rows.new ≡ page_slice (page_of list Position.Start) rows.old }
{
    interface::fenyurka_first_page(list, rows)
}

// The same for the rows after a pair.
#[unsafe(no_mangle)]
pub extern "C" fn fenyurka_page_after(
    list: FenyurkaList,
    p: u32,
    q: u32,
    rows: &mut [u32],
) -> FenyurkaPage
    ensures value { result ≡ page_result (page_values (page_answer (page_of list (Position.After p q)) rows.old)) }
    ensures rows_after { rows.new ≡ page_slice (page_of list (Position.After p q)) rows.old }
{
    interface::fenyurka_page_after(list, p, q, rows)
}

// Words of a pair's period, the step at least the floor, and how many were written.
#[unsafe(no_mangle)]
pub extern "C" fn fenyurka_points(
    degree: u32,
    floor: u32,
    p: u32,
    q: u32,
    first: u32,
    words: &mut [u32],
) -> FenyurkaPoints
    ensures value { result ≡ points_result (points_values (points_answer degree floor p q first words.old)) }
    ensures words_after { words.new ≡ points_slice degree floor p q first words.old }
{
    interface::fenyurka_points(degree, floor, p, q, first, words)
}

// How many degrees a catalogue has.
#[unsafe(no_mangle)]
pub extern "C" fn fenyurka_open(file: &[u8]) -> FenyurkaCatalogue
    ensures { result ≡ catalogue_result (opening_values (opening file.now)) }
{
    interface::fenyurka_open(file)
}

// A degree's body: its top dimension, whether its rows have Δ, its row count, where it lies in the file, and how many bytes it and a row of it have.
#[unsafe(no_mangle)]
pub extern "C" fn fenyurka_lookup(file: &[u8], degree: u32) -> FenyurkaBody
    ensures { result ≡ located file.now degree }
{
    interface::fenyurka_lookup(file, degree)
}

// The row at a place of a body and the place behind it, or the end.
#[unsafe(no_mangle)]
pub extern "C" fn fenyurka_row(list: FenyurkaList, body: &[u8], place: usize) -> FenyurkaRow
    ensures { result ≡ row_at_place list body.now place }
{
    interface::fenyurka_row(list, body, place)
}

// Writes the catalogue that entries ask for, degree, T, degree, T, .., with T + 16 for rows with Δ, each list at the floor, and says how many bytes it
// has.
#[unsafe(no_mangle)]
pub extern "C" fn fenyurka_write(floor: u32, entries: &[u32], file: &mut [u8]) -> FenyurkaFile
    ensures value { result ≡ file_result (file_values (file_answer floor entries.now file.old)) }
    ensures file_after { file.new ≡ file_buffer floor entries.now file.old }
{
    interface::fenyurka_write(floor, entries, file)
}

// The rows of a body, written over a buffer.
ghost use Rattle.std.specs.Prelude.{◌≡◌, map, ◌+◌, ◌*◌, ◌≤◌, length};
ghost use Rattle.definitions.specs.Number.{join, over};
ghost use Rattle.definitions.specs.Ranking.{row_width};
ghost use Rattle.definitions.specs.Catalogue.{row_size};
ghost use Rattle.definitions.specs.Writing.{row_bytes};
ghost use Rattle.number_laws.specs.Bounds.{LawfulDegree, LawfulTop};
ghost use Rattle.page_laws.specs.Rows.{rows_of};
ghost use Rattle.catalogue_laws.specs.Written.{LawfulRow, LawfulRows};

use catalogue_bytes::sizes;
use catalogue_numbers::{write_bytes, write_number};
use definitions::Selection;
use row_places::width_of;

// A row: p without its leading term, q and the step, then the numbers that rank it.
fn write_row(file: &mut [u8], at: usize, list: Selection, row: &[u32])
    requires lawful_degree { LawfulDegree list.degree × LawfulTop list.top }
    requires lawful_row { LawfulRow list.degree list.top list.gaps row.now }
    requires gaps_in_bounds { at + row_size list.degree list.top list.gaps ≤ length file.old }
    ensures { file.new ≡ over at (row_bytes list.degree row.now) file.old }
{
    let width = sizes::number_size(list.degree);
    write_number(file, at, width, row[0] - (1 << list.degree));
    write_number(file, at + width, width, row[1]);
    write_number(file, at + 2 * width, width, row[2]);
    write_bytes(file, at + sizes::NUMBERS * width, &row[sizes::NUMBERS..]);
}

// The first `count` rows of a slice, one behind the other.
// File and place, not a slice: the contract says what is written over the file there.
pub fn write_rows(file: &mut [u8], at: usize, list: Selection, rows: &[u32], count: usize)
    requires lawful_degree { LawfulDegree list.degree × LawfulTop list.top }
    requires list_in_bounds { count * row_width list ≤ length rows.now }
    requires lawful_rows { LawfulRows list.degree list.top list.gaps (rows_of (row_width list) count rows.now) }
    requires gaps_in_bounds { at + count * row_size list.degree list.top list.gaps ≤ length file.old }
    ensures { file.new
        ≡ over at (join (map (row_bytes list.degree) (rows_of (row_width list) count rows.now))) file.old }
{
    let size = sizes::row_size(list.degree, list.top, list.gaps);
    let width = width_of(list);
    for k in 0..count {
        write_row(file, at + k * size, list, &rows[k * width..(k + 1) * width]);
    }
}

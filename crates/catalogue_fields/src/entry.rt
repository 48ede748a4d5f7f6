// An entry of the contents, written over a buffer.
ghost use Rattle.std.specs.Prelude.{◌≡◌, ◌+◌, ◌≤◌, length};
ghost use Rattle.definitions.specs.Number.{over};
ghost use Rattle.definitions.specs.Catalogue.{entry_size};
ghost use Rattle.number_laws.specs.Bounds.{LawfulDegree, LawfulTop};
ghost use Rattle.catalogue_fields.specs.Entry.{entry_fields};

use catalogue_bytes::sizes;
use catalogue_numbers::write_number;
use definitions::Selection;

// The degree, T with the kind, the row count and the place of the body.
// File and place, not a slice: the contract says what is written over the file there.
pub fn write_entry(file: &mut [u8], at: usize, list: Selection, rows: u32, offset: u32)
    requires lawful_degree { LawfulDegree list.degree × LawfulTop list.top }
    requires degree_in_bounds { at + entry_size list.degree ≤ length file.old }
    ensures { file.new ≡ over at (entry_fields list rows offset) file.old }
{
    let width = sizes::count_size(list.degree);
    file[at] = list.degree as u8;
    file[at + sizes::TOP_OFFSET] = marks::marked_top(list.top, list.gaps) as u8;
    write_number(file, at + sizes::COUNT_OFFSET, width, rows);
    write_number(
        file,
        at + sizes::COUNT_OFFSET + width,
        sizes::OFFSET_SIZE,
        offset,
    );
}

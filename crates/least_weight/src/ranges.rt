// The search for the lightest relation, over ranges of shares: of each coordinate a range of digits, of which the most are taken and the fewest counted. So
// one search of the coordinates below serves all shares in the ranges.
ghost use Rattle.std.specs.Prelude.{◌≡◌, ◌+◌, ◌<◌, ◌≤◌};
ghost use Rattle.definitions.specs.Ranking.{largest_top};
ghost use Rattle.least_weight.specs.Places.{PathAt, RoomAt, LeavingAt, SearchedAt, BelowAt, Reached};

use digit_rows::table::TABLE;
use limits::LARGEST_DEGREE;
use relations::sums::scan;
use relations::vectors::{SLOTS, reduce};

// What stays the same over a search: the degree, the bound below which no more digit rows need be taken, and the digit rows.
#[derive(Clone, Copy)]
pub struct Search<'a> {
    pub degree: u32,
    pub bound: u32,
    pub table: &'a [u32; TABLE],
}

// A place in it: `digits` rows of the coordinate are among those taken, and its range goes from `from` to `to`; the coordinates above count `counted`, and
// `least` is the least weight so far. The mask chooses the vectors in the basis, and `starts` has a 1 where each coordinate's rows start.
#[derive(Clone, Copy)]
pub struct Place {
    pub coordinate: u32,
    pub taken: u32,
    pub digits: u32,
    pub from: u32,
    pub to: u32,
    pub counted: u32,
    pub least: u32,
    pub mask: u64,
    pub starts: u64,
}

// How far a range of the coordinate may go, where so many digit rows more may be taken than are counted: its part of them. Behind the last coordinate
// nothing is searched, and one range has all.
pub fn width(spare: u32, coordinate: u32) -> u32
    requires { (1 ≤ coordinate) × (coordinate < largest_top) × (spare < 32) }
    ensures { (result ≤ 32) × (2 ≤ coordinate → result ≤ spare) }
{
    if coordinate == 1 {
        return 32;
    }
    (spare + coordinate - 2) / (coordinate - 1)
}

impl Search<'_> {
    // The least weight from here on. Where the range is ended, the coordinates below are gone through, and the next range begins behind it.
    #[cycle(search_below_search_ranges)]
    pub fn search_ranges(&self, mut at: Place, basis: &mut [u64; SLOTS]) -> u32
        requires path { PathAt self.now.table.now self.now.degree at basis.old }
        requires room { RoomAt self.now.degree self.now.bound at }
        ensures { SearchedAt self.now.table.now self.now.degree self.now.bound at basis.old basis.new result }
    {
        'rows: loop {
            if at.digits >= at.to || at.counted + at.digits + self.bound >= at.least {
                at.least = self.search_below(at, basis);
                if at.counted + at.digits + self.bound >= at.least {
                    return at.least;
                }
                let spare = self.degree + 1 + at.counted + at.digits - at.taken - at.least;
                at.from = at.digits + 1;
                at.to = at.from + width(spare, at.coordinate);
            }
            at = self.take_row(at, basis);
        }
    }

    // The least weight with rows of the coordinates below, over the range of the coordinate from `from` to `digits`.
    #[cycle(search_below_search_ranges)]
    pub fn search_below(&self, at: Place, basis: &mut [u64; SLOTS]) -> u32
        requires path { PathAt self.now.table.now self.now.degree at basis.old }
        requires leaving { LeavingAt self.now.degree self.now.bound at }
        ensures { BelowAt self.now.table.now self.now.degree self.now.bound at basis.old basis.new result }
    {
        if at.coordinate == 1 {
            return at.least;
        }
        let low = at.counted + at.from;
        if low + self.bound >= at.least {
            return at.least;
        }
        let coordinate = at.coordinate - 1;
        let below = Place {
            coordinate,
            digits: 0,
            from: 0,
            to: width(self.degree + 1 + low - at.taken - at.least, coordinate),
            counted: low,
            starts: at.starts | (1 << at.taken),
            ..at
        };
        self.search_ranges(below, basis)
    }

    // Takes the next digit row of the coordinate: it is packed, reduced, scanned and kept. The place behind it.
    pub fn take_row(&self, at: Place, basis: &mut [u64; SLOTS]) -> Place
        requires path { PathAt self.now.table.now self.now.degree at basis.old }
        requires room { RoomAt self.now.degree self.now.bound at }
        requires digits_lt_to { (at.digits < at.to) × (at.counted + at.digits + self.now.bound < at.least) }
        ensures digits { result.digits ≡ at.digits + 1 }
        ensures reached { Reached self.now.table.now self.now.degree self.now.bound at basis.old result basis.new }
    {
        let value = self.table[(at.coordinate * LARGEST_DEGREE + at.digits) as usize];
        let row = (u64::from(value) << 32) ^ (1 << at.taken);
        let v = reduce(basis, at.mask, row);
        let few = at.least - at.counted - at.digits - 2;
        let found = scan(v, at.mask, at.least, few, at.starts, basis);
        let place = 63 - u64::leading_zeros(v);
        basis[place as usize] = v;
        Place {
            taken: at.taken + 1,
            digits: at.digits + 1,
            least: found,
            mask: at.mask ^ (1 << place),
            ..at
        }
    }
}

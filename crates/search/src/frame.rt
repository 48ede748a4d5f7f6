// A search for the rows of a page: what it is made with, and what it has counted.
use definitions::Selection;

// The list that is searched, how many rows fit, and the row that the page begins after; none at the start.
#[derive(Clone, Copy)]
pub struct Frame<'a> {
    pub list: Selection,
    pub capacity: usize,
    pub last: Option<&'a [u32]>,
}

// How many rows are kept at the front of the slice, and how many were met above the cut.
#[derive(Clone, Copy)]
pub struct Tally {
    pub kept: usize,
    pub count: usize,
}

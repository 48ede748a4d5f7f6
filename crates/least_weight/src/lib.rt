// The least weight of digit rows that are not free, one coordinate more at a time: the lightest relation, searched over ranges of shares. Customers call
// nothing here.
#![tactic(auto)]

pub mod ranges; // the search, one range of a coordinate's digits after the other
pub mod weight; // the least weight with one coordinate more

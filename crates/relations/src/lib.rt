// The lightest relation whose newest digit row is given. A digit row is packed above its label, so that a sum of packed rows tells what it weighs; packed
// rows are reduced by their leading terms, and the sums that can be light are those with small vectors. Customers call nothing here.
#![tactic(auto)]

pub mod weight; // what a packed sum weighs
pub mod vectors; // a packed row reduced by the vectors of those taken
pub mod sums; // the lightest of the sums of a vector and of smaller ones

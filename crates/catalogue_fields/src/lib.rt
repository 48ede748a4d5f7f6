// The rows of a body and the entries of the contents, written over a buffer. Customers call nothing here.
#![tactic(auto)]

pub mod rows; // the rows of a body
pub mod entry; // an entry of the contents

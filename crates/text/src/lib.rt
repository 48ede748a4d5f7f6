// Lines of words and numbers, put at a place of a buffer: where a line fits, the answer is the place behind it; where it does not, nothing is
// written and the answer is the place itself. Customers call nothing here.
#![tactic(auto)]

pub mod lines; // lines of words and numbers

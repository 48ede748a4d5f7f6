// The rows of a page: those of a lawful list above a position, as many as fit a slice; and how many rows a list has. Customers call nothing here.
#![tactic(auto)]

pub mod serve; // the rows, from the start or after a pair of the list
pub mod count; // how many rows a list has

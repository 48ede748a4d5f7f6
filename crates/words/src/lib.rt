// The words of a pair's full period. Customers call nothing here.
#![tactic(auto)]

pub mod writing; // the words from an index on

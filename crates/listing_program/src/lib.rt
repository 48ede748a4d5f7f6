// The listing program whole, for the programs that run it.
#![tactic(auto)]

pub mod program; // one line read, and its list or refusal printed

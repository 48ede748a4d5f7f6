// Numbers in a catalogue's bytes. Customers call nothing here.
#![tactic(auto)]

pub mod bytes; // numbers that are read, and held to a bound
pub mod form; // the form of a body
pub mod sizes; // how many bytes a number, an entry and a row take

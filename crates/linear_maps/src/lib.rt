// Additive functions of residues as tables of their values: times c, and squaring, modulo p. Customers call nothing here.
#![tactic(auto)]

pub mod maps; // the tables of times c and of squaring, and a value looked up

// Binary polynomials as machine words: what the crates above compute with. Customers call nothing here.
#![tactic(auto)]

pub mod digits; // the degree from leading zeros, the parity of a digit row from a count of ones, the leading term of a degree
pub mod residues; // residues modulo p: times x, product, powers

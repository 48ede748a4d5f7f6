// Whether x and q have the full order 2^m - 1 modulo p, by powers that are looked up. Customers call nothing here.
#![tactic(auto)]

pub mod powers; // powers of x and of q by look-ups
pub mod primitive; // the tests by powers over the table of prime divisors: of p, and of q's order

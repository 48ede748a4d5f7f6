// Orders modulo p: the prime divisors of the full one, which power of x is q, and whether that power is below a floor. Customers call nothing here.
#![tactic(auto)]

pub mod divisors; // the table of prime divisors of 2^m - 1
pub mod step; // the step finder
pub mod floors; // whether a step is at least a floor

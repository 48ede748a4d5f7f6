// Continued fractions of pairs: the tree that has each pair once, and the test of a pair's partial quotients. Customers call nothing here.
#![tactic(auto)]

pub mod tree; // one level of the tree of pairs
pub mod quotients; // whether every partial quotient has degree one

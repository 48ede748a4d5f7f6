// The digit rows of a pair, x^i q^j modulo p for digit i of coordinate j: where each coordinate's begin, all of some coordinates in a table, and how they
// reduce each other. Customers call nothing here.
#![tactic(auto)]

pub mod powers; // the powers of q modulo p, each the first digit row of its coordinate
pub mod reduction; // a digit row reduced by the vectors of those taken
pub mod table; // the digit rows of the coordinates, one coordinate after the other

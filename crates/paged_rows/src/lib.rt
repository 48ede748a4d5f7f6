// The rows of a list as they are printed: each row, and the line of its page where that ends, put into a text. Customers call nothing here.
#![tactic(auto)]

pub mod putting; // rows put into a text

// The most bytes of a row and of the line of its page.
pub const STEP_ROOM: usize = 147;

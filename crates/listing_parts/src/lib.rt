// The text that is printed upon a line, part by part: `listing_start::start` reads the line, and each call of `parts::next` puts the next part into
// a lent buffer. The parts joined are the listing of the line, so a program only reads bytes, calls these and writes bytes.
#![tactic(auto)]

pub mod parts; // the next part
mod rows; // rows with the lines of their pages, as many as fit

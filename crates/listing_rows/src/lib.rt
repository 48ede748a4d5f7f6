// The next rows of a list, as many as fit a slice and, printed, a text. A step of `listing_parts`; customers call nothing here.
#![tactic(auto)]

pub mod taking; // the next rows, as many as fit

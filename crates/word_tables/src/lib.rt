// One word, and tables from which many words come. Customers call nothing here.
#![tactic(auto)]

pub mod word; // one word: its state, and the first 32 digits of a state over p
pub mod tables; // the next state and the word by tables

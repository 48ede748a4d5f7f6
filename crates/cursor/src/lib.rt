// A cursor over the ranked list: the next rows into a lent slice, as many as fit. It refuses nothing: a caller has a lawful list and a slice that
// holds a row. Customers call nothing here.
#![tactic(auto)]

pub mod reading; // the cursor, and the next rows

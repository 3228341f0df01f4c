// A rectangle of lines with a parity line for each row and column: its lines in lent buffers, and its sizes. What is done with it stands
// above, in the crates `tables`, `change` and `repair`. Document 01, "The rectangle".
#![tactic(auto)]

pub mod answers;
pub mod lines;
pub mod sizes;
pub mod store;

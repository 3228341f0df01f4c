// What a result of repair is counted by: its marks and its answer.
#![tactic(auto)]

pub mod answers;
pub mod marks;

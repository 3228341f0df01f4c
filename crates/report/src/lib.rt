// What is said of a store file: a check of the whole store, and the report. Document 01, "Store file".
#![tactic(auto)]

pub mod check;
pub mod numbers;
pub mod program;
pub mod report;

// The wear report of a tour (request Q-5) as values; its definitions and promises stand in specs/, and their proofs here. Code that adds
// and compares is in `wear`.
#![tactic(auto)]

use results::marks::Counts;

// How many stores repair handed over with each of its answers 0, 11 and 12.
#[derive(Clone, Copy, Default)]
pub struct Answers {
    pub done: u64,
    pub left: u64,
    pub differs: u64,
}

// A report: stores and lines seen, lines for each mark, stores for each answer.
#[derive(Clone, Copy, Default)]
pub struct Wear {
    pub stores: u64,
    pub lines: u64,
    pub marks: Counts,
    pub answers: Answers,
}

// The wear report of a tour (request Q-5): one repair result taken in after another, and the shares of rebuilt lines compared.
#![tactic(auto)]

pub mod adding;
pub mod numbers;
pub mod report;
pub mod share;

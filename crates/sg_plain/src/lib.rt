//! Statements on a plain list of rows: what each answers, and what it leaves.
#![tactic(auto)]

mod evals;
mod keys;
mod replays;
mod rows;
mod scans;
mod statements;
mod transactions;

pub use evals::eval;
pub use keys::KeyList;
pub use replays::execute;
pub use rows::PlainRows;
pub use scans::keys_with;
pub use statements::{Answer, Answers, Query, Statement, Test};
pub use transactions::{End, Transaction};

#[cfg(test)]
mod tests;

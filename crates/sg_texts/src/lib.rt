//! The text of what is told of a run: its commits with their answers, its other transactions, and the rows at its end.
#![tactic(auto)]

mod keys;
#[cfg(test)]
mod label_tests;
mod labels;
mod laws;
mod others;
mod telling;
#[cfg(test)]
mod telling_tests;
mod texts;
mod told;

pub use laws::told_tells;
pub use others::{Ending, Other};
pub use telling::tell;
pub use told::{Committed, Told};

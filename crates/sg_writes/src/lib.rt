//! The needs of statements that write, and what they write: the new row, its old and its new cells, and the answer.
//!
//! Memory is taken by `Change::of` alone, so that a change whose needs are met is made whole.
#![tactic(auto)]

mod changes;
mod moved;
mod needs;
mod writes;

pub use changes::{Change, ChangeBack, ChangePlace};
pub use needs::Act;

#[cfg(test)]
mod finish_tests;
#[cfg(test)]
mod need_tests;

//! Which sessions wait for which, the cycle that a wait closes, and the member that gives way.
#![tactic(auto)]

mod ranks;
mod standing;

pub use ranks::{Rank, Ranks, victim};
pub use standing::Waits;

#[cfg(test)]
mod tests;

//! The two stores of a table side by side, its rows and their cell rows: when they agree, which keys they have,
//! and which needs the locks of a session on those keys meet.
#![tactic(auto)]

mod needs;

pub use needs::is_met;

#[cfg(test)]
mod tests;

//! What callers do who share a table from their own threads: a few transactions as functions, and the tests that run
//! them beside each other.
#![tactic(auto)]

mod moves;

pub use moves::{
    Task, beside, do_one, do_task, insert, intersecting, no_index, two_rows, update, x_of,
};

#[cfg(test)]
mod tests;

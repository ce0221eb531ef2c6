//! The sessions of a run in threads of their own: one locked run, which a thread changes by one step at a time.
#![tactic(auto)]

mod locked;
mod threads;

pub use threads::run_threads;

#[cfg(test)]
mod tests;

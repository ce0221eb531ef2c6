//! A script run over the locking engine: the turns of its sessions, and what became of each transaction.
#![tactic(auto)]

mod courses;
mod outcomes;
mod runs;
mod turns;

pub use outcomes::Outcome;
pub use runs::Run;
pub use turns::Turn;

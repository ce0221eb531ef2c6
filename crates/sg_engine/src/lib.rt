//! The locking engine: sessions begin transactions, ask for statements and go on step by step, under key-range locks.
//! Each call appends labels to a trace, which stays legal.
#![tactic(auto)]

mod answers;
mod delivery;
mod ends;
mod engine;
mod grants;
mod new_keys;
mod next_acts;
mod opens;
mod preparing;
mod queries;
mod searches;
mod shared;
mod steps;
mod waiting;

pub use delivery::Stranger;
pub use engine::Engine;
pub use shared::AskBack;
pub use steps::Step;

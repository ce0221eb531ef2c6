//! Lock modes, and the sessions that ask for them: their numbers, sets, priorities and turns.
#![tactic(auto)]

mod modes;
mod numbers;
mod priorities;
mod schedules;
mod sets;

pub use modes::{Mode, compatible, is_range};
pub use numbers::Session;
pub use priorities::Priorities;
pub use schedules::Schedule;
pub use sets::Sessions;

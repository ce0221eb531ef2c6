//! A table that callers share in threads of their own: one engine under a lock, and one history that each caller knows as
//! far as it has seen it.
#![tactic(auto)]

mod calls;
mod ending;
mod going;
mod locked;
mod opened;
mod seating;
mod seats;

pub use calls::{Db, Refused};
pub use locked::Naming;
pub use opened::{Named, Opened};
pub use seating::Seats;
pub use seats::{Front, Note, Seat};

//! Runs driven to their end: the turns of the script's order, and then rounds of its sessions until all have ended.
#![tactic(auto)]

mod drives;
mod laws;

pub use drives::{Workers, drive, finish};
pub use laws::driven_laws;

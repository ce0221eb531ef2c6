//! Values by key under sessions that write: what the last commit left at a key, and what a session
//! has written there since.
//!
//! Room for keys is reserved before it is needed, so that no later call needs memory.
#![tactic(auto)]

mod version;
mod versions;

pub use version::{Version, WritesEnd};
pub use versions::Versions;

#[cfg(test)]
mod tests;

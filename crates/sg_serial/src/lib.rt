//! The journal of a legal trace is serial and in the script's order. The call does nothing.
#![tactic(auto)]

mod laws;

pub use laws::journal_laws;

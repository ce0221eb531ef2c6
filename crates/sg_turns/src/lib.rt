//! Ends, waits and turns of a legal trace: each transaction has one outcome, one that is rolled back leaves nothing,
//! some session can always go on, and the turns determine the trace. The calls do nothing.
#![tactic(auto)]

mod laws;

pub use laws::{outcome_laws, rollback_laws, turn_laws, wait_laws};

//! What a session has read stays as it is while other sessions go on: what a reply rests on, the needs that a search
//! has passed, and the keys there. The calls do nothing.
#![tactic(auto)]

mod laws;

pub use laws::{passing_laws, reading_laws};

//! Each label of a legal trace lowers a measure, so that a run of a script ends. The call does nothing.
#![tactic(auto)]

mod laws;

pub use laws::measure_laws;

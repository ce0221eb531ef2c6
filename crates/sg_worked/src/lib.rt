//! Worked traces: what two sessions do beside each other, label by label, as a review of the definitions of locks and
//! legal traces. Each is the trace that its script has by turns of the sessions, and is proved legal by computation.
#![tactic(auto)]

mod laws;

pub use laws::worked_traces;

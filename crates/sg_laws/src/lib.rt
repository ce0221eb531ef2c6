//! What holds after each event of a legal trace: the locks guard what was answered, so no phantom comes. Of traces as
//! data; the call does nothing.
#![tactic(auto)]

mod laws;

pub use laws::state_laws;

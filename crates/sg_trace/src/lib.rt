//! What a table with a spatial index answers: which rows a query finds through the cells of its shape, which of
//! them the cells alone decide, and the one reply of each statement; and what sessions do to it step by step: the
//! locks that a statement needs, the labels of a trace, which traces are legal, and their journal. The definitions
//! stand in specs/; the laws that tie replies to plain rows are stated by calls that do nothing.
#![tactic(auto)]

mod journals;
mod labels;
mod laws;
mod rooms;

pub use journals::{Journal, JournalEntry, KeptAnswers, KeptStatements};
pub use labels::{Cause, Label, Trace, schedule_of};
pub use laws::{candidate_laws, reply_laws};
pub use rooms::Roomy;

#[cfg(test)]
mod tests;

//! The printed text of a run: its commits with their answers, its other transactions with their endings, and its
//! rows, and where they are asked for its labels and its turns.
#![tactic(auto)]

mod reports;
mod summaries;

pub use reports::report;
pub use summaries::summary;

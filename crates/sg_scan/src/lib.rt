//! The rows of a table loaded with their cells, and what a query finds through them: the rows of which a
//! cell lies in a range of the query's cells (SQL Server documentation, Spatial Indexes Overview), and those
//! of them that the cells alone decide. Without an index each row is found.
#![tactic(auto)]

mod lists;
mod loads;
mod needs;
mod queries;
mod scans;
mod searches;
mod walks;

pub use loads::{Loaded, load};
pub use scans::Scan;
pub use searches::Found;

#[cfg(test)]
mod tests;

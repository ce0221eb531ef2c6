//! The ranges of cells in which a query looks for the cells of rows, and what a row's cell alone tells about the
//! query (SQL Server documentation, Spatial Indexes Overview).
#![tactic(auto)]

mod filters;
mod lists;
mod queries;

pub use filters::accepted;
pub use lists::Ranges;
pub use queries::ranges;

#[cfg(test)]
mod tests;

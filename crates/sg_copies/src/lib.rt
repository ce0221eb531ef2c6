//! Copies of a table's committed rows, for readers that never wait.
#![tactic(auto)]

mod changes;
mod copies;
mod rule;
mod shapes;
mod stored;
mod writes;

pub use changes::{Changes, Writes};
pub use copies::TableCopy;
pub use rule::{CopyReader, CopyReading, CopyWriter, Learns, Looks, Published, Tells};

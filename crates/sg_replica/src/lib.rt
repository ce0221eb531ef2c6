//! Snapshot readers: readers of a table's committed rows that never wait for its locks, beside one publisher that
//! brings them the engine's journal.
#![tactic(auto)]

mod publishers;
mod queues;
mod replicas;
mod snapshots;
mod told;

pub use publishers::Publisher;
pub use replicas::{Replica, Snapshots};
pub use snapshots::{Seen, Snapshot};
pub use told::Told;

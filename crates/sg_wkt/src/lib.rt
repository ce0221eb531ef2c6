//! Well-known text (OGC 06-103r4, clause 7): reading it, with the exact first fault, and writing it in
//! one canonical form.
#![tactic(auto)]

mod drafts;
mod faults;
mod laws;
mod numbers;
mod pieces;
mod reading;
#[cfg(test)]
mod tests;
mod tokens;
mod writing;

pub use faults::{ReadShape, WktFault, WktKind};
pub use laws::{is_one_line, reads_back, reads_exactly, reads_sound, tells_apart, tells_faults};
pub use reading::read_wkt;
pub use writing::write_wkt;

//! The script's text: its lines, the fields of a line, and the script that they spell.
#![tactic(auto)]

mod faults;
mod fields;
mod laws;
mod lines;
mod numbers;
mod phrases;
mod readers;
mod reading;
mod scripts;
mod sessions;
mod settings;
#[cfg(test)]
mod tests;
mod texts;
mod turns;
mod words;
mod writing;

pub use faults::{ReadScript, ScriptFault, ScriptKind};
pub use laws::tells_faults;
pub use reading::read_script;
pub use scripts::Script;
pub use sessions::SessionScript;
pub use writing::write_script;

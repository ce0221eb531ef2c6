//! The program's top calls: a script of transactions on a table of shapes is run by its sessions in turns or in threads
//! of their own, and printed; or a script is made from a number.
#![tactic(auto)]

mod ends;
mod faults;
mod laws;
mod making;
mod process;
mod program;
mod replay;
mod sessions;
mod status;

pub use faults::fault_line;
pub use laws::{one_text, printed_turns_replay, text_tells_run};
pub use making::make_main;
pub use process::process_main;
pub use program::spatial_main;
pub use replay::replay_main;
pub use status::{Exit, Status};

//! The words of the program's command, and what they ask for.
#![tactic(auto)]

mod forms;
mod numbers;
#[cfg(test)]
mod tests;
mod usage;
mod words;

pub use forms::Form;
pub use words::Words;

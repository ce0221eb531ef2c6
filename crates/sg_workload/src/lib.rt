//! A script made from a number: a table of boxes, and sessions that look at it, change it and add to it. It is exactly
//! that of its definition, so that anybody makes the same one again.
#![tactic(auto)]

mod generator;
mod scripts;
#[cfg(test)]
mod tests;

pub use scripts::make_script;

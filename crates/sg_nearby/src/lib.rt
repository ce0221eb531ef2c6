//! A shape as it is near a box: one that has the same points in the box, and few spots elsewhere.
//!
//! Where three spots in turn lie on one side of the box, the way from the first to the third by the second can be
//! cut short: no point of the box lies on the three edges, nor within the triangle that they make.
#![tactic(auto)]

mod paths;
mod shapes;
mod sides;

pub use shapes::nearby;

#[cfg(test)]
mod tests;

//! Whether some point of one shape and some point of another are nearer to each other than a bound: decided
//! exactly, over all points of the plane, by whole numbers within 128 bits. And what a shape that was grown
//! by a distance is, by points.
#![tactic(auto)]

mod areas;
mod boxes;
mod distances;
mod edges;
mod laws;
mod lines;

pub use distances::near;
pub use laws::grown_laws;

#[cfg(test)]
mod tests;

//! Decides, for the definitions alone, what is said over all points of the plane.
//!
//! Whether a point of the plane passes a test on its status in shapes and its place in boxes depends on the
//! signs of finitely many linear forms alone. One finite list of points shows each combination of signs that
//! any point has. Nothing of this is run.
#![tactic(auto)]

mod laws;

pub use laws::{plane_laws, reach_laws};

#[cfg(test)]
mod tests {
    use super::*;

    #[test]
    fn laws_are_called(_rt: HostRuntime) {
        plane_laws();
        reach_laws();
    }
}

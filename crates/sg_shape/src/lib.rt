//! Shapes in whole-number coordinates, the points of the plane that they consist of, and what two of
//! them have to do with each other (OGC 06-103r4).
#![tactic(auto)]

mod bounds;
mod cells;
mod checks;
mod grown;
mod items;
mod judges;
mod matrices;
mod paths;
mod shapes;
mod spots;

pub use bounds::Bounds;
pub use cells::{CellBox, CellJudge};
pub use items::{Back, Items};
pub use judges::Judge;
pub use matrices::{Matrix, Pred};
pub use paths::{Path, RingBack, Rings};
pub use shapes::{Kind, Shape, ShapeFault};
pub use spots::{Edge, Spot};

#[cfg(test)]
mod tests;

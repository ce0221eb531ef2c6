//! The judge of shapes: their matrix by a plane sweep, one relation by as much of the sweep as decides it, and their
//! nearness by distances of edges.
//!
//! A relation speaks of the common places of both bounds alone, or these rule it out. So shapes are swept as they are near
//! these places, and what is asked of a point is settled by its status.
#![tactic(auto)]

mod boxes;
mod points;
mod relations;

use sg_shape::{Judge, Matrix, Pred, Shape};
use std::alloc::{AllocError, Global};

/// Judges two shapes exactly, over all points of the plane.
#[derive(Clone, Copy, Debug)]
pub struct Relate;

impl Judge for Relate {
    fn relate(&self, alloc: Global, a: &Shape, b: &Shape) -> Result<Matrix, AllocError> {
        sg_sweep::statuses(alloc, a, b)
    }

    fn satisfies(
        &self,
        alloc: Global,
        a: &Shape,
        b: &Shape,
        pred: Pred,
    ) -> Result<bool, AllocError> {
        relations::relates(alloc, a, b, pred)
    }

    fn near(&self, a: &Shape, b: &Shape, d: u32, strict: bool) -> bool {
        sg_distance::near(a, b, d, strict)
    }
}

#[cfg(test)]
mod tests;

use crate::paths::{Path, Rings};
use crate::spots::Spot;
use std::alloc::{AllocError, Global};
use thiserror::Error;

/// The kinds of geometry (OGC 06-103r4, clause 6.1).
#[derive(Clone, Copy, Debug, PartialEq, Eq)]
pub enum Kind {
    Point,
    Line,
    Polygon,
}

/// A geometry: a set of points of the plane.
#[derive(Debug, Drop)]
pub enum Shape {
    /// A geometry of this kind without points, written `EMPTY`.
    Empty(Kind),
    /// The one point at a spot.
    Point(Spot),
    /// The line through these spots, in order.
    Line(Path),
    /// The area within these rings, by the parity of the edges that a ray crosses.
    Polygon(Rings),
}

/// Why a shape isn't sound.
#[derive(Clone, Copy, Debug, Drop, PartialEq, Eq, Error)]
pub enum ShapeFault {
    /// It has more than 2,048 spots in all.
    #[error("more than 2048 spots")]
    TooMany,
    /// The first ring, counted from 0, of fewer than four spots; 0 for a line of fewer than two, and for
    /// a polygon without rings.
    #[error("ring {ring} has too few spots")]
    TooFew { ring: usize },
    /// The first ring, counted from 0, whose last spot isn't its first.
    #[error("ring {ring} isn't closed")]
    RingOpen { ring: usize },
    /// The first spot, counted over the whole shape from 0, with a coordinate outside the limits.
    #[error("spot {at} is outside the coordinate limits")]
    CoordOut { at: usize },
}

impl Shape {
    ghost use Rattle.std.specs.Prelude.{◌≡◌, ◌↔◌, IsTrue, IfOk};

    /// An equal shape.
    pub fn copy(&self, alloc: Global) -> Result<Shape, AllocError>
        ensures { IfOk result (λ shape. shape ≡ self.now) }
    {
        match self {
            Shape::Empty(kind) => Ok(Shape::Empty(*kind)),
            Shape::Point(spot) => Ok(Shape::Point(*spot)),
            Shape::Line(path) => Ok(Shape::Line(path.copy(alloc)?)),
            Shape::Polygon(rings) => Ok(Shape::Polygon(rings.copy(alloc)?)),
        }
    }

    /// Whether both are of one kind with the same spots in the same order.
    pub fn is_same(&self, other: &Shape) -> bool
        ensures { IsTrue result ↔ self.now ≡ other.now }
    {
        match (self, other) {
            (Shape::Empty(kind), Shape::Empty(another)) => kind == another,
            (Shape::Point(spot), Shape::Point(another)) => spot == another,
            (Shape::Line(path), Shape::Line(another)) => path.is_same(another),
            (Shape::Polygon(rings), Shape::Polygon(another)) => rings.is_same(another),
            _ => false,
        }
    }
}

ghost use Rattle.std.specs.Prelude.{◌≡◌, ◌≤◌, ◌↔◌, ◌&&◌, ◌==◌, IsTrue};
ghost use Rattle.sg_shape.specs.Bounds.{IsBounds};
ghost use Rattle.sg_shape.specs.Near.{Near};
ghost use Rattle.sg_shape.specs.Sound.{IsSound};
ghost use Rattle.sg_distance.specs.Shapes.{shapes_test};

use crate::areas::encloses;
use crate::boxes::are_apart;
use crate::edges::Limit;
use crate::lines::lines_are_near;
use sg_shape::{Bounds, Shape};

/// Whether some point of the one shape and some point of the other, each inside or on the boundary, lie at
/// a distance below `d` where it is strict, else at most `d`: 0 to 64,000,000, in units of the coordinates.
/// A shape without points is near none.
pub fn near(a: &Shape, b: &Shape, d: u32, strict: bool) -> bool
    requires first { IsSound a.now }
    requires second { IsSound b.now }
    requires small { d ≤ 64000000 }
    ensures { IsTrue result ↔ Near a.now b.now d strict }
{
    let limit = Limit {
        distance: d,
        strict,
    };
    match (a.bounds(), b.bounds()) {
        (Some(first), Some(second)) => boxed_are_near(limit, a, first, b, second),
        (None, _) | (_, None) => false,
    }
}

/// The same of shapes that have bounds.
fn boxed_are_near(limit: Limit, a: &Shape, first: Bounds, b: &Shape, second: Bounds) -> bool
    requires a { IsSound a.now }
    requires b { IsSound b.now }
    requires small { limit.distance ≤ 64000000 }
    requires first { IsBounds first a.now }
    requires second { IsBounds second b.now }
    ensures { IsTrue result ↔ Near a.now b.now limit.distance limit.strict }
{
    if is_below_none(limit) {
        return false;
    }
    if are_apart(limit.distance, first, second) {
        return false;
    }
    are_near(limit, a, b, second)
}

/// Whether no distance meets the limit.
fn is_below_none(limit: Limit) -> bool
    ensures { result ≡ (limit.strict && (limit.distance == 0)) }
{
    limit.strict && limit.distance == 0
}

/// Whether edges of the shapes are near, or one has a first spot in the other's area.
fn are_near(limit: Limit, a: &Shape, b: &Shape, second: Bounds) -> bool
    requires a { IsSound a.now }
    requires b { IsSound b.now }
    requires small { limit.distance ≤ 64000000 }
    requires second { IsBounds second b.now }
    ensures { result ≡ shapes_test limit a.now b.now }
{
    lines_are_near(limit, a, b, second) || encloses(a, b) || encloses(b, a)
}

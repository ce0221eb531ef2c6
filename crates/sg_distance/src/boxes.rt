ghost use Rattle.std.specs.Prelude.{◌≡◌, ◌-ℤ◌, int_lt, pos};
ghost use Rattle.sg_shape.specs.Bounds.{IsInside};
ghost use Rattle.sg_distance.specs.Shapes.{are_apart, is_gap};

use sg_shape::{Bounds, Edge};

/// The least box that holds the edge.
pub fn box_of(e: Edge) -> Bounds
    ensures from { IsInside result e.from }
    ensures to { IsInside result e.to }
{
    Bounds {
        xmin: e.from.x.min(e.to.x),
        ymin: e.from.y.min(e.to.y),
        xmax: e.from.x.max(e.to.x),
        ymax: e.from.y.max(e.to.y),
    }
}

/// Whether there is more than the distance between the boxes, in x or in y.
pub fn are_apart(distance: u32, a: Bounds, b: Bounds) -> bool
    ensures { result ≡ are_apart (pos distance) a b }
{
    is_gap(distance, a.xmin, a.xmax, b.xmin, b.xmax)
        || is_gap(distance, a.ymin, a.ymax, b.ymin, b.ymax)
}

/// Whether there is more than the distance between two stretches of a line.
fn is_gap(distance: u32, low: i32, high: i32, from: i32, to: i32) -> bool
    ensures { result ≡ is_gap (pos distance) low high from to }
{
    exceeds(high, from, distance) || exceeds(to, low, distance)
}

/// Whether it is more than the distance from the low number up to the high one.
fn exceeds(low: i32, high: i32, distance: u32) -> bool
    ensures { result ≡ int_lt (pos distance) (high -ℤ low) }
{
    i64::from(distance) < i64::from(high) - i64::from(low)
}

ghost use Rattle.std.specs.Prelude.{◌≡◌, ◌≤◌, All};
ghost use Rattle.std.specs.List.{list_any};
ghost use Rattle.sg_shape.specs.Bounds.{IsInside};
ghost use Rattle.sg_shape.specs.Plane.{edges, edges_of};
ghost use Rattle.sg_shape.specs.Limits.{IsIn};
ghost use Rattle.sg_distance.specs.Shapes.{are_near, is_near_any, lines_of};

use crate::boxes::{are_apart, box_of};
use crate::edges::{Limit, edges_are_near};
use sg_shape::{Bounds, Edge, Path, Shape, Spot};

/// Whether some edge of the first shape is near some edge of the second, which lies in the box.
pub fn lines_are_near(limit: Limit, a: &Shape, b: &Shape, bounds: Bounds) -> bool
    requires small { limit.distance ≤ 64000000 }
    requires first { All (All IsIn) (lines_of a.now) }
    requires second { All (All IsIn) (lines_of b.now) }
    requires inside { All (All (IsInside bounds)) (lines_of b.now) }
    ensures { result ≡ list_any (is_near_any limit (edges_of (lines_of b.now))) (edges_of (lines_of a.now)) }
{
    match a {
        Shape::Empty(_) => false,
        Shape::Point(spot) => edge_is_near(limit, dot(*spot), b, bounds),
        Shape::Line(path) => path_is_near(limit, path.as_slice(), b, bounds),
        Shape::Polygon(rings) => rings_are_near(limit, rings.as_slice(), b, bounds),
    }
}

/// The edge from a spot to itself.
fn dot(spot: Spot) -> Edge
    ensures from { result.from ≡ spot }
    ensures to { result.to ≡ spot }
{
    Edge {
        from: spot,
        to: spot,
    }
}

fn rings_are_near(limit: Limit, rings: &[Path], b: &Shape, bounds: Bounds) -> bool
    requires small { limit.distance ≤ 64000000 }
    requires first { All (All IsIn) rings.now }
    requires second { All (All IsIn) (lines_of b.now) }
    requires inside { All (All (IsInside bounds)) (lines_of b.now) }
    ensures { result ≡ list_any (is_near_any limit (edges_of (lines_of b.now))) (edges_of rings.now) }
{
    for ring in rings {
        if path_is_near(limit, ring.as_slice(), b, bounds) {
            return true;
        }
    }
    false
}

fn path_is_near(limit: Limit, path: &[Spot], b: &Shape, bounds: Bounds) -> bool
    requires small { limit.distance ≤ 64000000 }
    requires first { All IsIn path.now }
    requires second { All (All IsIn) (lines_of b.now) }
    requires inside { All (All (IsInside bounds)) (lines_of b.now) }
    ensures { result ≡ list_any (is_near_any limit (edges_of (lines_of b.now))) (edges path.now) }
{
    for at in 1..path.len() {
        let e = Edge {
            from: path[at - 1],
            to: path[at],
        };
        if edge_is_near(limit, e, b, bounds) {
            return true;
        }
    }
    false
}

/// Whether the edge is near some edge of the shape.
fn edge_is_near(limit: Limit, e: Edge, b: &Shape, bounds: Bounds) -> bool
    requires small { limit.distance ≤ 64000000 }
    requires from { IsIn e.from }
    requires to { IsIn e.to }
    requires second { All (All IsIn) (lines_of b.now) }
    requires inside { All (All (IsInside bounds)) (lines_of b.now) }
    ensures { result ≡ is_near_any limit (edges_of (lines_of b.now)) e }
{
    if are_apart(limit.distance, box_of(e), bounds) {
        return false;
    }
    edge_is_near_lines(limit, e, b)
}

fn edge_is_near_lines(limit: Limit, e: Edge, b: &Shape) -> bool
    requires small { limit.distance ≤ 64000000 }
    requires from { IsIn e.from }
    requires to { IsIn e.to }
    requires second { All (All IsIn) (lines_of b.now) }
    ensures { result ≡ is_near_any limit (edges_of (lines_of b.now)) e }
{
    match b {
        Shape::Empty(_) => false,
        Shape::Point(spot) => edges_are_near(limit, e, dot(*spot)),
        Shape::Line(path) => edge_is_near_path(limit, e, path.as_slice()),
        Shape::Polygon(rings) => edge_is_near_rings(limit, e, rings.as_slice()),
    }
}

fn edge_is_near_rings(limit: Limit, e: Edge, rings: &[Path]) -> bool
    requires small { limit.distance ≤ 64000000 }
    requires from { IsIn e.from }
    requires to { IsIn e.to }
    requires second { All (All IsIn) rings.now }
    ensures { result ≡ is_near_any limit (edges_of rings.now) e }
{
    for ring in rings {
        if edge_is_near_path(limit, e, ring.as_slice()) {
            return true;
        }
    }
    false
}

fn edge_is_near_path(limit: Limit, e: Edge, path: &[Spot]) -> bool
    requires small { limit.distance ≤ 64000000 }
    requires from { IsIn e.from }
    requires to { IsIn e.to }
    requires second { All IsIn path.now }
    ensures { result ≡ is_near_any limit (edges path.now) e }
{
    for at in 1..path.len() {
        let f = Edge {
            from: path[at - 1],
            to: path[at],
        };
        if edges_are_near(limit, e, f) {
            return true;
        }
    }
    false
}

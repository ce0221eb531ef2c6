ghost use Rattle.std.specs.Prelude.{◌≡◌, [], ◌∷◌, All};
ghost use Rattle.sg_shape.specs.Plane.{edges, edges_of, crosses_ray, is_above, passes_right};
ghost use Rattle.sg_segment.specs.Sides.{point_at};
ghost use Rattle.sg_segment.specs.Statuses.{parity, xor};
ghost use Rattle.sg_shape.specs.Limits.{IsIn};
ghost use Rattle.sg_distance.specs.Shapes.{area_of, first_odd, lines_of};

use sg_segment::orient;
use sg_shape::{Edge, Path, Shape, Spot};

/// Whether the first spot of some line or ring of the second shape has an odd number of the first one's
/// edges on its right: then it lies inside the first one's area, or on its edge.
pub fn encloses(a: &Shape, b: &Shape) -> bool
    requires first { All (All IsIn) (lines_of a.now) }
    requires second { All (All IsIn) (lines_of b.now) }
    ensures { result ≡ first_odd (area_of a.now) (lines_of b.now) }
{
    encloses_first(area_of(a), b)
}

/// The rings of the shape's area.
fn area_of(shape: &Shape) -> &[Path]
    ensures { result.now ≡ area_of shape.now }
{
    match shape {
        Shape::Polygon(rings) => rings.as_slice(),
        Shape::Empty(_) | Shape::Point(_) | Shape::Line(_) => &[],
    }
}

fn encloses_first(rings: &[Path], b: &Shape) -> bool
    requires first { All (All IsIn) rings.now }
    requires second { All (All IsIn) (lines_of b.now) }
    ensures { result ≡ first_odd rings.now (lines_of b.now) }
{
    match b {
        Shape::Empty(_) => false,
        Shape::Point(spot) => is_inside(rings, *spot),
        Shape::Line(path) => encloses_first_of(rings, path.as_slice()),
        Shape::Polygon(others) => encloses_some_first(rings, others.as_slice()),
    }
}

fn encloses_some_first(rings: &[Path], others: &[Path]) -> bool
    requires first { All (All IsIn) rings.now }
    requires second { All (All IsIn) others.now }
    ensures { result ≡ first_odd rings.now others.now }
{
    for other in others {
        if encloses_first_of(rings, other.as_slice()) {
            return true;
        }
    }
    false
}

fn encloses_first_of(rings: &[Path], path: &[Spot]) -> bool
    requires first { All (All IsIn) rings.now }
    requires second { All IsIn path.now }
    ensures { result ≡ first_odd rings.now (path.now ∷ []) }
{
    match path {
        [] => false,
        [first, ..] => is_inside(rings, *first),
    }
}

/// Whether an odd number of the edges of all rings lies on the right of the spot.
fn is_inside(rings: &[Path], spot: Spot) -> bool
    requires first { All (All IsIn) rings.now }
    requires second { IsIn spot }
    ensures { result ≡ parity (edges_of rings.now) (point_at spot) }
{
    let mut inside = false;
    for ring in rings {
        inside = differ(inside, is_inside_ring(ring.as_slice(), spot));
    }
    inside
}

/// Whether exactly one of the two is true.
fn differ(a: bool, b: bool) -> bool
    ensures { result ≡ xor a b }
{
    a != b
}

fn is_inside_ring(ring: &[Spot], spot: Spot) -> bool
    requires first { All IsIn ring.now }
    requires second { IsIn spot }
    ensures { result ≡ parity (edges ring.now) (point_at spot) }
{
    let mut inside = false;
    for at in 1..ring.len() {
        let e = Edge {
            from: ring[at - 1],
            to: ring[at],
        };
        inside = differ(inside, crosses_ray(e, spot));
    }
    inside
}

/// Whether the edge crosses the ray from the spot to the right.
fn crosses_ray(e: Edge, spot: Spot) -> bool
    requires from { IsIn e.from }
    requires to { IsIn e.to }
    requires second { IsIn spot }
    ensures { result ≡ crosses_ray e (point_at spot) }
{
    match (is_above(e.from, spot), is_above(e.to, spot)) {
        (false, true) => passes_right(e.from, e.to, spot),
        (true, false) => passes_right(e.to, e.from, spot),
        (false, false) | (true, true) => false,
    }
}

fn is_above(end: Spot, spot: Spot) -> bool
    ensures { result ≡ is_above end (point_at spot) }
{
    spot.y < end.y
}

/// Whether the edge from the lower to the higher spot passes on the right, at the height of the spot.
fn passes_right(low: Spot, high: Spot, spot: Spot) -> bool
    requires low { IsIn low }
    requires high { IsIn high }
    requires second { IsIn spot }
    ensures { result ≡ passes_right low high (point_at spot) }
{
    0 < orient(low, high, spot)
}

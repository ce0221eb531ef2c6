ghost use Rattle.std.specs.Prelude.{◌≡◌, ◌≤◌, length, nat_lt, Some, MatchResult, flat_map};
ghost use Rattle.std.specs.List.{position_from};
ghost use Rattle.sg_shape.specs.Sound.{IsSound, fault_of, coord_ok, is_open, is_out, is_short};

use crate::paths::Path;
use crate::shapes::{Shape, ShapeFault};
use crate::spots::Spot;

/// The greatest size of a coordinate.
const LIMIT: i32 = 16_000_000;

/// The most spots of a shape, all rings together.
const MOST_SPOTS: usize = 2_048;

/// The fewest spots of a line.
const LEAST_OF_A_LINE: usize = 2;

/// The fewest spots of a ring; the last is the first.
const LEAST_OF_A_RING: usize = 4;

impl Shape {
    /// Whether the shape is sound. The fault is the first one in this order: too many spots, a part of
    /// too few, an open ring, a coordinate out.
    pub fn check(&self) -> Result<(), ShapeFault>
        ensures { MatchResult result (λ _. IsSound self.now) (λ fault. fault_of self.now ≡ Some fault) }
    {
        match self {
            Shape::Empty(_) => Ok(()),
            Shape::Point(spot) => {
                if is_out(*spot) {
                    return Err(ShapeFault::CoordOut { at: 0 });
                }
                Ok(())
            }
            Shape::Line(path) => check_line(path.as_slice()),
            Shape::Polygon(rings) => check_polygon(rings.as_slice()),
        }
    }
}

fn check_line(spots: &[Spot]) -> Result<(), ShapeFault>
    ensures { MatchResult result (λ _. IsSound (Shape.Line spots.now)) (λ fault. fault_of (Shape.Line spots.now) ≡ Some fault) }
{
    if spots.len() > MOST_SPOTS {
        return Err(ShapeFault::TooMany);
    }
    if spots.len() < LEAST_OF_A_LINE {
        return Err(ShapeFault::TooFew { ring: 0 });
    }
    match first_out(spots) {
        Some(at) => Err(ShapeFault::CoordOut { at }),
        None => Ok(()),
    }
}

fn check_polygon(rings: &[Path]) -> Result<(), ShapeFault>
    ensures { MatchResult result (λ _. IsSound (Shape.Polygon rings.now)) (λ fault. fault_of (Shape.Polygon rings.now) ≡ Some fault) }
{
    if are_many(rings) {
        return Err(ShapeFault::TooMany);
    }
    if rings.is_empty() {
        return Err(ShapeFault::TooFew { ring: 0 });
    }
    if let Some(ring) = first_short(rings) {
        return Err(ShapeFault::TooFew { ring });
    }
    if let Some(ring) = first_open(rings) {
        return Err(ShapeFault::RingOpen { ring });
    }
    match first_out_of(rings) {
        Some(at) => Err(ShapeFault::CoordOut { at }),
        None => Ok(()),
    }
}

fn is_out(spot: Spot) -> bool
    ensures { result ≡ is_out spot }
{
    !(is_within(spot.x) && is_within(spot.y))
}

fn is_within(coordinate: i32) -> bool
    ensures { result ≡ coord_ok coordinate }
{
    -LIMIT <= coordinate && coordinate <= LIMIT
}

fn is_open(ring: &[Spot]) -> bool
    ensures { result ≡ is_open ring.now }
{
    match ring {
        [] => false,
        [first, .., last] => first != last,
        [_] => false,
    }
}

fn first_out(spots: &[Spot]) -> Option<usize>
    ensures { result ≡ position_from is_out 0 spots.now }
{
    spots.iter().position(|spot| is_out(*spot))
}

fn first_short(rings: &[Path]) -> Option<usize>
    ensures { result ≡ position_from is_short 0 rings.now }
{
    rings.iter().position(|ring| ring.len() < LEAST_OF_A_RING)
}

fn first_open(rings: &[Path]) -> Option<usize>
    ensures { result ≡ position_from is_open 0 rings.now }
{
    rings.iter().position(|ring| is_open(ring.as_slice()))
}

/// Whether all rings together have more than the most spots.
fn are_many(rings: &[Path]) -> bool
    ensures { result ≡ nat_lt 2048 (length (flat_map (λ ring. ring) rings.now)) }
{
    let mut left = MOST_SPOTS;
    for ring in rings {
        if ring.len() > left {
            return true;
        }
        left -= ring.len();
    }
    false
}

/// The first spot outside the limits, counted over all rings.
fn first_out_of(rings: &[Path]) -> Option<usize>
    requires { length (flat_map (λ ring. ring) rings.now) ≤ 2048 }
    ensures { result ≡ position_from is_out 0 (flat_map (λ ring. ring) rings.now) }
{
    let mut before = 0;
    for ring in rings {
        if let Some(at) = first_out(ring.as_slice()) {
            return Some(before + at);
        }
        before += ring.len();
    }
    None
}

ghost use Rattle.std.specs.Prelude.{◌≡◌, ◌++◌, ◌∷◌, [], List, MatchOption, flat_map};
ghost use Rattle.sg_shape.specs.declared.spots.Spot.{Spot};
ghost use Rattle.sg_shape.specs.Bounds.{Bounding, IsBounds, IsEmpty, joined};
ghost use Rattle.sg_shape.specs.Sound.{IsSound};

use crate::paths::Path;
use crate::shapes::Shape;
use crate::spots::Spot;

/// A box with sides along the axes, all sides included.
#[derive(Clone, Copy, Debug, PartialEq, Eq)]
pub struct Bounds {
    pub xmin: i32,
    pub ymin: i32,
    pub xmax: i32,
    pub ymax: i32,
}

impl Shape {
    /// The least box that holds the shape: `None` exactly for a shape without points.
    pub fn bounds(&self) -> Option<Bounds>
        requires { IsSound self.now }
        ensures { MatchOption result (IsEmpty self.now) (λ bounds. IsBounds bounds self.now) }
    {
        match self {
            Shape::Empty(_) => None,
            Shape::Point(spot) => Some(Bounds::of(*spot)),
            Shape::Line(path) => bounds_of(path.as_slice()),
            Shape::Polygon(rings) => bounds_of_all(rings.as_slice()),
        }
    }
}

impl Bounds {
    /// The box of one spot.
    fn of(spot: Spot) -> Bounds
        ensures { Bounding result (spot ∷ []) }
    {
        Bounds {
            xmin: spot.x,
            ymin: spot.y,
            xmax: spot.x,
            ymax: spot.y,
        }
    }

    /// The least box that holds both.
    fn joined(self, other: Bounds) -> Bounds
        ensures { result ≡ joined self other }
    {
        Bounds {
            xmin: self.xmin.min(other.xmin),
            ymin: self.ymin.min(other.ymin),
            xmax: self.xmax.max(other.xmax),
            ymax: self.ymax.max(other.ymax),
        }
    }
}

/// The box of these and those spots, from both boxes.
fn joined(these: Option<Bounds>, those: Option<Bounds>) -> Option<Bounds>
    ensures { (xs ys : List Spot) → MatchOption these (xs ≡ []) (λ b. Bounding b xs) → MatchOption those (ys ≡ []) (λ b. Bounding b ys)
        → MatchOption result (xs ++ ys ≡ []) (λ b. Bounding b (xs ++ ys)) }
{
    match (these, those) {
        (Some(a), Some(b)) => Some(a.joined(b)),
        (Some(a), None) => Some(a),
        (None, b) => b,
    }
}

fn bounds_of(spots: &[Spot]) -> Option<Bounds>
    ensures { MatchOption result (spots.now ≡ []) (λ b. Bounding b spots.now) }
{
    let mut bounds = None;
    for spot in spots {
        bounds = joined(bounds, Some(Bounds::of(*spot)));
    }
    bounds
}

fn bounds_of_all(rings: &[Path]) -> Option<Bounds>
    ensures { MatchOption result (flat_map (λ ring. ring) rings.now ≡ []) (λ b. Bounding b (flat_map (λ ring. ring) rings.now)) }
{
    let mut bounds = None;
    for ring in rings {
        bounds = joined(bounds, bounds_of(ring.as_slice()));
    }
    bounds
}

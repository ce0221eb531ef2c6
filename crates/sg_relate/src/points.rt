ghost use Rattle.std.specs.Prelude.{◌≡◌, pos};
ghost use Rattle.sg_shape.specs.Shapes.{status_in};
ghost use Rattle.sg_shape.specs.Sound.{IsSound};
ghost use Rattle.sg_shape.specs.Limits.{IsIn};
ghost use Rattle.sg_segment.specs.Statuses.{named};
ghost use Rattle.sg_segment.specs.Sides.{point_at};
ghost use Rattle.sg_relate.specs.Deciding.{relates_by};

use sg_segment::{Place, PointStatus, status_at};
use sg_shape::{Pred, Shape, Spot};

/// Whether a point is so related to a shape, or the shape to it, where their boxes allow the relation: by its status.
pub fn point_relates(spot: Spot, shape: &Shape, pred: Pred) -> bool
    requires spot { IsIn spot }
    requires sound { IsSound shape.now }
    ensures { result ≡ relates_by pred (status_in shape.now (point_at spot)) }
{
    relates_by(pred, status_of(spot, shape))
}

/// The status of a spot in a shape.
fn status_of(spot: Spot, shape: &Shape) -> PointStatus
    requires spot { IsIn spot }
    requires sound { IsSound shape.now }
    ensures { named result ≡ status_in shape.now (point_at spot) }
{
    status_at(shape, place_of(spot))
}

fn place_of(spot: Spot) -> Place
    ensures x { result.x ≡ spot.x }
    ensures y { result.y ≡ spot.y }
    ensures n { result.n ≡ 1 }
{
    Place {
        x: i128::from(spot.x),
        y: i128::from(spot.y),
        n: 1,
    }
}

fn relates_by(pred: Pred, status: PointStatus) -> bool
    ensures { result ≡ relates_by pred (named status) }
{
    match (pred, status) {
        (Pred::Intersects, PointStatus::In | PointStatus::Bd) => true,
        (Pred::Touches, PointStatus::Bd) => true,
        (Pred::Contains | Pred::Within | Pred::Equals, PointStatus::In) => true,
        _ => false,
    }
}

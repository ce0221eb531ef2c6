ghost use Rattle.std.specs.Prelude.{◌≡◌, length, nat_lt, flat_map};
ghost use Rattle.sg_shape.specs.Shapes.{spots};

use sg_shape::{Path, Shape};

/// A shape of more spots is cut down to what is near a cell before the cell's children are looked at.
const FEW: usize = 16;

/// Whether the shape has so many spots that those which matter near a cell are worth the search.
pub(crate) fn has_many(shape: &Shape) -> bool
    ensures { result ≡ nat_lt 16 (length (spots shape.now)) }
{
    match shape {
        Shape::Empty(_) | Shape::Point(_) => false,
        Shape::Line(path) => path.len() > FEW,
        Shape::Polygon(rings) => have_many(rings.as_slice()),
    }
}

/// Whether all rings together have more spots than a few.
fn have_many(rings: &[Path]) -> bool
    ensures { result ≡ nat_lt 16 (length (flat_map (λ ring. ring) rings.now)) }
{
    let mut left = FEW;
    for ring in rings {
        if ring.len() > left {
            return true;
        }
        left -= ring.len();
    }
    false
}

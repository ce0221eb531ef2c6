ghost use Rattle.std.specs.Prelude.{◌≡◌, ◌++◌, ◌∷◌, [], IfOk, OnOk};
ghost use Rattle.sg_shape.specs.Sound.{IsSound};
ghost use Rattle.sg_nearby.specs.Nearby.{SameIn, HasSpotsOf};

use crate::paths::thin;
use sg_shape::{CellBox, Path, Rings, Shape};
use std::alloc::{AllocError, Global};

/// A sound shape in which each point of the box has the status that it has in the shape, made of some of the shape's
/// spots. `Err` comes for want of memory alone.
pub fn nearby(alloc: Global, shape: &Shape, cell: &CellBox) -> Result<Shape, AllocError>
    requires sound { IsSound shape.now }
    ensures same { IfOk result (λ near. SameIn cell.now near shape.now) }
    ensures sound { IfOk result (λ near. IsSound near) }
    ensures spots { IfOk result (λ near. HasSpotsOf near shape.now) }
{
    match shape {
        Shape::Empty(_) | Shape::Point(_) => shape.copy(alloc),
        Shape::Line(path) => Ok(Shape::Line(thin(alloc, path.as_slice(), cell)?)),
        Shape::Polygon(rings) => Ok(Shape::Polygon(thin_rings(alloc, rings.as_slice(), cell)?)),
    }
}

/// Each ring without the spots that don't matter in the box.
fn thin_rings(alloc: Global, rings: &[Path], cell: &CellBox) -> Result<Rings, AllocError>
    requires sound { IsSound (Shape.Polygon rings.now) }
    ensures same { IfOk result (λ thin. SameIn cell.now (Shape.Polygon thin) (Shape.Polygon rings.now)) }
    ensures sound { IfOk result (λ thin. IsSound (Shape.Polygon thin)) }
    ensures spots { IfOk result (λ thin. HasSpotsOf (Shape.Polygon thin) (Shape.Polygon rings.now)) }
{
    let mut list = Rings::new(alloc);
    for ring in rings {
        add(&mut list, thin(alloc, ring.as_slice(), cell)?)?;
    }
    Ok(list)
}

/// Puts the ring last.
fn add(list: &mut Rings, ring: Path) -> Result<(), AllocError>
    ensures { OnOk result (list.new ≡ list.old ++ ring ∷ []) }
{
    match list.push(ring) {
        Ok(()) => Ok(()),
        Err(_back) => Err(AllocError),
    }
}

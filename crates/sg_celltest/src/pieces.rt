ghost use Rattle.std.specs.Prelude.{◌≡◌, ◌↔◌, ◌||◌, IsTrue, IfOk, false};
ghost use Rattle.sg_shape.specs.Boxes.{IsCellBox, in_box};
ghost use Rattle.sg_shape.specs.Grown.{as_shape, by_sides};
ghost use Rattle.sg_shape.specs.Matrix.{IsMatrix};
ghost use Rattle.sg_shape.specs.Sound.{IsSound};
ghost use Rattle.sg_celltest.specs.Pieces.{in_piece, IsPiece, Misses, closed};

use crate::spans::{across, piece, up};
use sg_shape::{Bounds, CellBox, Judge, Matrix, Path, Rings, Shape, Spot};
use std::alloc::{AllocError, Global};

/// Whether some point of the piece is none of the shape.
pub(crate) fn misses_inside<J: Judge>(
    judge: &J,
    alloc: Global,
    shape: &Shape,
    piece: Bounds,
) -> Result<bool, AllocError>
    requires sound { IsSound shape.now }
    requires piece { IsPiece piece }
    ensures { IfOk result (λ missed. IsTrue missed ↔ Misses shape.now (in_piece piece)) }
{
    let solid = as_shape(alloc, piece)?;
    let matrix = judge.relate(alloc, &solid, shape)?;
    Ok(matrix.io)
}

/// What a shape misses of a cell with all its edges.
#[derive(Clone, Copy)]
pub(crate) struct Missed {
    /// Some point within the four sides.
    pub inside: bool,
    /// Some point within them or on them.
    pub anywhere: bool,
}

/// What the shape misses of the cell with all its edges.
pub(crate) fn missed_closed<J: Judge>(
    judge: &J,
    alloc: Global,
    shape: &Shape,
    cell: &CellBox,
) -> Result<Missed, AllocError>
    requires sound { IsSound shape.now }
    requires sides { IsCellBox cell.now }
    ensures inside { IfOk result (λ missed. IsTrue missed.inside → Misses shape.now (in_box cell.now)) }
    ensures anywhere { IfOk result (λ missed. IsTrue missed.anywhere ↔ Misses shape.now (in_box (closed cell.now))) }
{
    let solid = as_shape(alloc, piece(across(cell), up(cell)))?;
    let matrix = judge.relate(alloc, &solid, shape)?;
    Ok(Missed {
        inside: matrix.io,
        anywhere: leaves_second(matrix),
    })
}

/// Whether some point of the first shape is none of the second.
fn leaves_second(matrix: Matrix) -> bool
    ensures { result ≡ (matrix.io || matrix.bo) }
{
    matrix.io || matrix.bo
}

/// The shape whose inside is the piece.
fn as_shape(alloc: Global, bounds: Bounds) -> Result<Shape, AllocError>
    requires { IsPiece bounds }
    ensures same { IfOk result (λ shape. shape ≡ as_shape bounds) }
    ensures sound { IfOk result (λ shape. IsSound shape) }
{
    let low = Spot {
        x: bounds.xmin,
        y: bounds.ymin,
    };
    let high = Spot {
        x: bounds.xmax,
        y: bounds.ymax,
    };
    match (bounds.xmin == bounds.xmax, bounds.ymin == bounds.ymax) {
        (true, true) => Ok(Shape::Point(low)),
        (true, false) | (false, true) => Ok(Shape::Line(path_of(alloc, &[low, high])?)),
        (false, false) => ring_around(alloc, low, high),
    }
}

fn path_of(alloc: Global, spots: &[Spot]) -> Result<Path, AllocError>
    ensures { IfOk result (λ path. path ≡ spots.now) }
{
    let mut path = Path::new(alloc);
    for spot in spots {
        path.push(*spot)?;
    }
    Ok(path)
}

fn ring_around(alloc: Global, low: Spot, high: Spot) -> Result<Shape, AllocError>
    ensures { IfOk result (λ shape. shape ≡ by_sides false false (record { xmin = low.x; ymin = low.y; xmax = high.x; ymax = high.y })) }
{
    let low_right = Spot {
        x: high.x,
        y: low.y,
    };
    let high_left = Spot {
        x: low.x,
        y: high.y,
    };
    let ring = path_of(alloc, &[low, low_right, high, high_left, low])?;
    let mut rings = Rings::new(alloc);
    rings.push(ring)?;
    Ok(Shape::Polygon(rings))
}

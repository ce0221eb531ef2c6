ghost use Rattle.std.specs.Prelude.{◌≡◌, ◌↔◌, ◌&&◌, ◌≤ℤ◌, IsTrue, IfOk};
ghost use Rattle.sg_shape.specs.Boxes.{IsCellBox, within, in_box};
ghost use Rattle.sg_shape.specs.Sound.{IsSound, coord_ok};
ghost use Rattle.sg_celltest.specs.Pieces.{is_between, Misses};

use crate::pieces::{missed_closed, misses_inside};
use crate::spans::{Span, across, bottom, left, piece, right, top, up};
use sg_shape::{CellBox, Judge, Shape};
use std::alloc::{AllocError, Global};

/// Whether some point of the cell is none of the shape. One matrix tells, that of the cell with all its edges, unless
/// the shape misses points of these edges alone.
pub(crate) fn misses<J: Judge>(
    judge: &J,
    alloc: Global,
    shape: &Shape,
    cell: &CellBox,
) -> Result<bool, AllocError>
    requires sound { IsSound shape.now }
    requires sides { IsCellBox cell.now }
    ensures { IfOk result (λ missed. IsTrue missed ↔ Misses shape.now (in_box cell.now)) }
{
    let missed = missed_closed(judge, alloc, shape, cell)?;
    if missed.inside {
        return Ok(true);
    }
    if !missed.anywhere {
        return Ok(false);
    }
    misses_in_pieces(judge, alloc, shape, cell)
}

/// The same by the pieces of the cell.
fn misses_in_pieces<J: Judge>(
    judge: &J,
    alloc: Global,
    shape: &Shape,
    cell: &CellBox,
) -> Result<bool, AllocError>
    requires sound { IsSound shape.now }
    requires sides { IsCellBox cell.now }
    ensures { IfOk result (λ missed. IsTrue missed ↔ Misses shape.now (in_box cell.now)) }
{
    if misses_across(judge, alloc, shape, cell, across(cell))? {
        return Ok(true);
    }
    if misses_across(judge, alloc, shape, cell, left(cell))? {
        return Ok(true);
    }
    if !cell.closed_x {
        return Ok(false);
    }
    misses_across(judge, alloc, shape, cell, right(cell))
}

/// Whether some point of the cell whose x lies in the span is none of the shape.
fn misses_across<J: Judge>(
    judge: &J,
    alloc: Global,
    shape: &Shape,
    cell: &CellBox,
    xs: Span,
) -> Result<bool, AllocError>
    requires sound { IsSound shape.now }
    requires sides { IsCellBox cell.now }
    requires order { xs.low ≤ℤ xs.high }
    requires left { IsTrue (coord_ok xs.low) }
    requires right { IsTrue (coord_ok xs.high) }
    ensures { IfOk result (λ missed. IsTrue missed ↔ Misses shape.now (λ p. is_between xs.low xs.high p.x p.n && within cell.now.ylow cell.now.yhigh cell.now.closed_y p.y p.n)) }
{
    if misses_inside(judge, alloc, shape, piece(xs, up(cell)))? {
        return Ok(true);
    }
    if misses_inside(judge, alloc, shape, piece(xs, bottom(cell)))? {
        return Ok(true);
    }
    if !cell.closed_y {
        return Ok(false);
    }
    misses_inside(judge, alloc, shape, piece(xs, top(cell)))
}

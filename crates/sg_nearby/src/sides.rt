ghost use Rattle.std.specs.Prelude.{◌≡◌, ◌&&◌, int_lt};
ghost use Rattle.sg_nearby.specs.Nearby.{are_beside, lies_left, lies_right, lies_below, lies_above};

use sg_shape::{CellBox, Spot};

/// Whether all three spots lie strictly on one side of the box.
pub(crate) fn are_beside(cell: &CellBox, a: Spot, b: Spot, c: Spot) -> bool
    ensures { result ≡ are_beside cell.now a b c }
{
    (lies_left(cell, a) && lies_left(cell, b) && lies_left(cell, c))
        || (lies_right(cell, a) && lies_right(cell, b) && lies_right(cell, c))
        || (lies_below(cell, a) && lies_below(cell, b) && lies_below(cell, c))
        || (lies_above(cell, a) && lies_above(cell, b) && lies_above(cell, c))
}

fn lies_left(cell: &CellBox, spot: Spot) -> bool
    ensures { result ≡ lies_left cell.now spot }
{
    spot.x < cell.xlow
}

fn lies_right(cell: &CellBox, spot: Spot) -> bool
    ensures { result ≡ lies_right cell.now spot }
{
    cell.xhigh < spot.x
}

fn lies_below(cell: &CellBox, spot: Spot) -> bool
    ensures { result ≡ lies_below cell.now spot }
{
    spot.y < cell.ylow
}

fn lies_above(cell: &CellBox, spot: Spot) -> bool
    ensures { result ≡ lies_above cell.now spot }
{
    cell.yhigh < spot.y
}

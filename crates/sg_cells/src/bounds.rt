ghost use Rattle.std.specs.Prelude.{◌≡◌, ◌≤◌, ◌&&◌, ℤ, pos, neg_ℤ, nat_abs, ◌-ℤ◌, ◌≤ℤ◌, ◌<ℤ◌, int_lt, int_le};
ghost use Rattle.sg_shape.specs.Sound.{coord_ok};
ghost use Rattle.sg_cells.specs.Grids.{grid_fault};

use crate::faults::GridFault;

/// The greatest size of a coordinate.
const LIMIT: i64 = 16_000_000;

/// The most cells per object.
const MOST_CELLS: i64 = 8192;

/// The first fault of a grid's numbers.
pub fn fault_of(xmin: i64, ymin: i64, xmax: i64, ymax: i64, cells: i64) -> Option<GridFault>
    ensures { result ≡ grid_fault xmin ymin xmax ymax cells }
{
    if !are_within(xmin, ymin, xmax, ymax) {
        return Some(GridFault::CoordOut);
    }
    if !has_room(xmin, ymin, xmax, ymax) {
        return Some(GridFault::BoxEmpty);
    }
    if !is_count(cells) {
        return Some(GridFault::CellsOut);
    }
    None
}

fn are_within(xmin: i64, ymin: i64, xmax: i64, ymax: i64) -> bool
    ensures { result ≡ (coord_ok xmin && (coord_ok ymin && (coord_ok xmax && coord_ok ymax))) }
{
    is_within(xmin) && (is_within(ymin) && (is_within(xmax) && is_within(ymax)))
}

fn has_room(xmin: i64, ymin: i64, xmax: i64, ymax: i64) -> bool
    ensures { result ≡ (int_lt xmin xmax && int_lt ymin ymax) }
{
    xmin < xmax && ymin < ymax
}

fn is_count(cells: i64) -> bool
    ensures { result ≡ (int_le (pos 1) cells && int_le cells (pos 8192)) }
{
    1 <= cells && cells <= MOST_CELLS
}

fn is_within(coordinate: i64) -> bool
    ensures { result ≡ coord_ok coordinate }
{
    -LIMIT <= coordinate && coordinate <= LIMIT
}

/// The same coordinate.
pub fn coordinate(value: i64) -> i32
    requires least { neg_ℤ (pos 16000000) ≤ℤ value }
    requires most { value ≤ℤ pos 16000000 }
    ensures { result ≡ value }
{
    value as i32
}

/// How far the high coordinate lies from the low one.
pub fn length_between(low: i64, high: i64) -> u32
    requires least { neg_ℤ (pos 16000000) ≤ℤ low }
    requires most { high ≤ℤ pos 16000000 }
    requires order { low <ℤ high }
    ensures { result ≡ nat_abs (high -ℤ low) }
{
    (high - low) as u32
}

/// The same count.
pub fn count(cells: i64) -> u32
    requires least { pos 1 ≤ℤ cells }
    requires most { cells ≤ℤ pos 8192 }
    ensures { result ≡ nat_abs cells }
{
    cells as u32
}

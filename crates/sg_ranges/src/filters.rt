ghost use Rattle.std.specs.Prelude.{◌≡◌};
ghost use Rattle.sg_cells.specs.Ranges.{proves, accepted};

use sg_cells::{Cell, CellList, Mark};

/// Whether a row's cell alone tells that the row intersects the query: a cell of the query contains it and is
/// covered, or lies in it where it is covered itself. It takes no memory.
pub fn accepted(cell: Cell, mark: Mark, query: &CellList) -> bool
    ensures { result ≡ accepted (cell, mark) query.now }
{
    is_proved_by_any(cell, mark, query.as_slice())
}

fn is_proved_by_any(cell: Cell, mark: Mark, query: &[(Cell, Mark)]) -> bool
    ensures { result ≡ accepted (cell, mark) query.now }
{
    for &(other, other_mark) in query {
        if proves(cell, mark, other, other_mark) {
            return true;
        }
    }
    false
}

/// Whether one of the cells contains the other, and is covered.
fn proves(cell: Cell, mark: Mark, other: Cell, other_mark: Mark) -> bool
    ensures { result ≡ proves (cell, mark) (other, other_mark) }
{
    (other.contains(cell) && other_mark == Mark::Cover)
        || (cell.contains(other) && mark == Mark::Cover)
}

ghost use Rattle.std.specs.Prelude.{◌≡◌, ◌≤◌, length, not, true, IfSome, IfNone, None, Some};
ghost use Rattle.std.specs.Map.{lookup_entry};
ghost use Rattle.sg_cells.specs.Cells as paths;
ghost use Rattle.sg_cells.specs.Lists.{IsApart};
ghost use Rattle.sg_pages.specs.Sorted.{is_reached, first_place};
ghost use Rattle.sg_cellrows.specs.CellTable.{cell_cmp, is_past, IsLeast};
ghost use Rattle.sg_stores.specs.Agreement.{mark_at};
ghost use Rattle.sg_trace.specs.Needs.{same_mark};
ghost use Rattle.sg_writes.specs.Moved.{mark_seen, IsNextMarks, IsMovedTo, is_same};

use sg_cellrows::CellRows;
use sg_cells::{Cell, CellList, Mark};
use sg_modes::Session;

/// The row's next cell above the given one at which the mark that the session sees and that of the list aren't
/// the same: only one has a mark there, or they differ. It goes over the cells before it, each in a logarithm.
pub(crate) fn next_moved(
    cells: &CellRows,
    s: Session,
    row: u32,
    list: &CellList,
    above: Option<Cell>,
) -> Option<Marks>
    ensures next { IfSome result (IsMovedTo (mark_seen cells.now.rows s row) (mark_at list.now) above) }
    ensures none { IfNone result ((c : paths.Cell) → is_past above c ≡ true → is_same (mark_seen cells.now.rows s row) (mark_at list.now) c ≡ true) }
{
    let mut last = above;
    while let Some(next) = next_marks(cells, s, row, list, last) {
        next.cell.in_bytes();
        if is_moved(&next) {
            return Some(next);
        }
        last = Some(next.cell);
    }
    None
}

/// A cell of a row, with the mark that is seen there and the one that is to be.
#[derive(Clone, Copy)]
pub(crate) struct Marks {
    pub cell: Cell,
    pub old: Option<Mark>,
    pub new: Option<Mark>,
}

/// Whether only one has a mark there, or they differ.
fn is_moved(marks: &Marks) -> bool
    ensures { result ≡ not (same_mark marks.now.old marks.now.new) }
{
    match (marks.old, marks.new) {
        (None, None) => false,
        (Some(old), Some(new)) => old != new,
        _ => true,
    }
}

/// The row's next cell above the given one that is seen or in the list.
fn next_marks(
    cells: &CellRows,
    s: Session,
    row: u32,
    list: &CellList,
    above: Option<Cell>,
) -> Option<Marks>
    ensures next { IfSome result (IsNextMarks (mark_seen cells.now.rows s row) (mark_at list.now) above) }
    ensures none { IfNone result ((c : paths.Cell) → is_past above c ≡ true → (mark_seen cells.now.rows s row c ≡ None) × (mark_at list.now c ≡ None)) }
{
    list.in_order();
    match cells.cell_of(s, row, copy_of(&above)) {
        None => match next_of(list, above) {
            None => None,
            Some((cell, new)) => Some(Marks {
                cell,
                old: None,
                new: Some(new),
            }),
        },
        Some(seen) => match next_of(list, copy_of(&above)) {
            None => Some(Marks {
                cell: seen.0,
                old: Some(seen.1),
                new: None,
            }),
            Some(given) => Some(lesser(cells, s, row, list, above, seen, given)),
        },
    }
}

fn copy_of(above: &Option<Cell>) -> Option<Cell>
    ensures { result ≡ above.now }
{
    *above
}

/// Of the next cell that is seen and the next of the list, the lesser.
fn lesser(
    cells: &CellRows,
    s: Session,
    row: u32,
    list: &CellList,
    above: Option<Cell>,
    seen: (Cell, Mark),
    given: (Cell, Mark),
) -> Marks
    requires apart { IsApart list.now }
    requires seen { IsLeast (mark_seen cells.now.rows s row) above seen }
    requires given { Some given ≡ lookup_entry (is_past above) list.now }
    ensures { IsNextMarks (mark_seen cells.now.rows s row) (mark_at list.now) above result }
{
    if seen.0 < given.0 {
        Marks {
            cell: seen.0,
            old: Some(seen.1),
            new: None,
        }
    } else if given.0 < seen.0 {
        Marks {
            cell: given.0,
            old: None,
            new: Some(given.1),
        }
    } else {
        Marks {
            cell: seen.0,
            old: Some(seen.1),
            new: Some(given.1),
        }
    }
}

/// The first cell of the list above the given one, with its mark.
fn next_of(list: &CellList, above: Option<Cell>) -> Option<(Cell, Mark)>
    ensures { result ≡ lookup_entry (is_past above) list.now }
{
    list.in_order();
    match above {
        None => list.at(0),
        Some(cell) => first_past(list.as_slice(), cell),
    }
}

fn first_past(list: &[(Cell, Mark)], cell: Cell) -> Option<(Cell, Mark)>
    requires { IsApart list.now }
    ensures { result ≡ lookup_entry (is_past (Some cell)) list.now }
{
    let at = place_past(list, cell);
    if at < list.len() {
        Some(list[at])
    } else {
        None
    }
}

/// How many cells of the list aren't above this one.
fn place_past(list: &[(Cell, Mark)], cell: Cell) -> usize
    requires { IsApart list.now }
    ensures place { result ≡ first_place (λ entry. is_reached cell_cmp cell true entry.0) list.now }
    ensures within { result ≤ length list.now }
{
    list.partition_point(|entry| !is_past(cell, entry.0))
}

fn is_past(cell: Cell, other: Cell) -> bool
    ensures { result ≡ is_reached cell_cmp cell true other }
{
    cell < other
}

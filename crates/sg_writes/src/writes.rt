ghost use Rattle.std.specs.Prelude.{◌≡◌, ◌==◌, IfSome, IsSome, ◌⊎◌, ◌&&◌, not, eqb, All, is_some, Some, None, cond};
ghost use Rattle.std.specs.List.{list_any};
ghost use Rattle.std.specs.BTreeMap.{is_at};
ghost use Rattle.sg_shape.specs.Sound.{IsSound};
ghost use Rattle.sg_pages.specs.Stored.{HasRisingKeys};
ghost use Rattle.sg_versions.specs.Versions.{visible, written, change_at};
ghost use Rattle.sg_versions.specs.Writers.{writer_of};
ghost use Rattle.sg_rows.specs.Table as table;
ghost use Rattle.sg_cellrows.specs.CellTable.{version_at, cell_key_cmp};
ghost use Rattle.sg_writes.specs.Finished.{IsReady, AreFree, AreCellsWritten, AreWritten};

use crate::moved::next_moved;
use sg_cellrows::CellRows;
use sg_cells::{Cell, CellList, Mark};
use sg_modes::Session;
use sg_plain::{Answer, KeyList};
use sg_rows::Rows;
use sg_shape::Shape;

/// Adds the row with its cells, unless the session sees one with the key.
pub(crate) fn insert(
    s: Session,
    row: u32,
    shape: Shape,
    list: &CellList,
    rows: &mut Rows,
    cells: &mut CellRows,
) -> Answer
    requires ready { visible s (table.version_at rows.old.rows row) ≡ None → IsReady s rows.old.rows cells.old.rows list.now row }
    requires sound { IsSound shape }
    ensures answer { result ≡ cond (is_some (visible s (table.version_at rows.old.rows row))) Answer.Duplicate Answer.Inserted }
    ensures written { AreWritten s (λ k. not (is_some (visible s (table.version_at rows.old.rows row))) && eqb row k) (Some shape) list.now rows.old.rows cells.old.rows rows.new.rows cells.new.rows }
{
    if rows.visible(s, row).is_some() {
        return Answer::Duplicate;
    }
    write(s, row, Some(shape), list, rows, cells);
    Answer::Inserted
}

/// Gives the row this shape and its cells, or takes it away, where the session sees it.
pub(crate) fn edit(
    s: Session,
    row: u32,
    shape: Option<Shape>,
    list: &CellList,
    rows: &mut Rows,
    cells: &mut CellRows,
) -> Answer
    requires ready { IsSome (visible s (table.version_at rows.old.rows row)) → IsReady s rows.old.rows cells.old.rows list.now row }
    requires sound { IfSome shape IsSound }
    ensures answer { result ≡ cond (is_some (visible s (table.version_at rows.old.rows row))) Answer.Done Answer.Missing }
    ensures written { AreWritten s (λ k. is_some (visible s (table.version_at rows.old.rows row)) && eqb row k) shape list.now rows.old.rows cells.old.rows rows.new.rows cells.new.rows }
{
    if rows.visible(s, row).is_none() {
        return Answer::Missing;
    }
    write(s, row, shape, list, rows, cells);
    Answer::Done
}

/// Takes the rows with these keys away, and leaves the marks of the list in place of their cells.
pub(crate) fn remove(
    s: Session,
    selected: &KeyList,
    list: &CellList,
    rows: &mut Rows,
    cells: &mut CellRows,
)
    requires { All (IsReady s rows.old.rows cells.old.rows list.now) selected.now }
    ensures { AreWritten s (λ k. list_any (λ j. j == k) selected.now) None list.now rows.old.rows cells.old.rows rows.new.rows cells.new.rows }
{
    for row in selected.as_slice() {
        write(s, *row, None, list, rows, cells);
    }
}

/// Leaves the shape, or none, at the key, and its cells in place of those that are seen.
fn write(
    s: Session,
    row: u32,
    shape: Option<Shape>,
    list: &CellList,
    rows: &mut Rows,
    cells: &mut CellRows,
)
    requires ready { IsReady s rows.old.rows cells.old.rows list.now row }
    requires sound { IfSome shape IsSound }
    ensures { AreWritten s (eqb row) shape list.now rows.old.rows cells.old.rows rows.new.rows cells.new.rows }
{
    rows.write(s, row, shape);
    write_cells(s, row, list, cells);
}

fn write_cells(s: Session, row: u32, list: &CellList, cells: &mut CellRows)
    requires { AreFree s cells.old.rows list.now row }
    ensures { AreCellsWritten s row list.now cells.old.rows cells.new.rows }
{
    let mut last = None;
    while let Some(next) = next_moved(cells, s, row, list, last) {
        next.cell.in_bytes();
        write_cell(s, row, next.cell, next.new, cells);
        last = Some(next.cell);
    }
}

fn write_cell(s: Session, row: u32, cell: Cell, mark: Option<Mark>, cells: &mut CellRows)
    requires present { IsSome (version_at cells.old.rows (cell, row)) }
    requires alone { (writer_of (version_at cells.old.rows (cell, row)) ≡ None) ⊎ (writer_of (version_at cells.old.rows (cell, row)) ≡ Some s) }
    ensures rows { cells.new.rows ≡ change_at (is_at (cell_key_cmp (cell, row))) (written s mark) cells.old.rows }
    ensures rising { HasRisingKeys cell_key_cmp cells.old.rows }
{
    cells.rising();
    cells.write(s, (cell, row), mark);
}

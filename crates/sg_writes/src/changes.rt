ghost use Rattle.std.specs.Prelude.{◌≡◌, IfOk};
ghost use Rattle.sg_shape.specs.Sound.{IsSound};
ghost use Rattle.sg_plain.specs.Sat.{IsSoundStatement};
ghost use Rattle.sg_trace.specs.Needs.{cells_in};
ghost use Rattle.sg_writes.specs.Changes.{Writes, new_cells, IsChangeFor, IsFresh};
ghost use Rattle.sg_writes.specs.Finished.{IsAlone, Finishes};

use crate::writes::{edit, insert, remove};
use sg_cellrows::CellRows;
use sg_cells::{Cell, CellList, Settings};
use sg_modes::Session;
use sg_plain::{Answer, KeyList, Statement};
use sg_rows::Rows;
use sg_shape::{CellJudge, Shape};
use sg_tess::tessellate;
use std::alloc::{AllocError, Global};

/// How far a change has come.
#[derive(Clone, Copy, Debug)]
pub struct ChangePlace {
    /// Of the selected rows, how many lie behind it.
    pub row: usize,
    /// Of the row at hand, the last cell behind it.
    pub cell: Option<Cell>,
}

/// What a statement writes: a new row, a new shape of a row, or the rows that go.
#[derive(Drop)]
pub struct Change {
    /// The statement.
    pub statement: Statement,
    /// The cells of the shape that it leaves.
    pub cells: CellList,
    /// The keys of the rows that a delete where removes.
    pub selected: KeyList,
    /// The keys behind this place are held to be written.
    pub place: ChangePlace,
}

/// A statement whose change found no memory, with its selected keys.
#[derive(Drop)]
pub struct ChangeBack {
    /// The statement as it was passed.
    pub statement: Statement,
    /// The keys as they were passed.
    pub selected: KeyList,
}

impl Change {
    /// The change of an insert, an update, a delete, or a delete where with the keys that it selects.
    ///
    /// `ChangeBack` is want of memory.
    pub fn of<C: CellJudge>(
        alloc: Global,
        judge: &C,
        settings: &Settings,
        statement: Statement,
        selected: KeyList,
    ) -> Result<Change, ChangeBack>
        requires writes { Writes statement }
        requires sound { IsSoundStatement statement }
        ensures change { IfOk result (IsChangeFor settings.now statement selected) }
        ensures fresh { IfOk result IsFresh }
    {
        match cells_of(alloc, judge, settings, &statement) {
            Ok(cells) => Ok(Change {
                statement,
                cells,
                selected,
                place: ChangePlace { row: 0, cell: None },
            }),
            Err(_) => Err(ChangeBack {
                statement,
                selected,
            }),
        }
    }

    /// Writes what the statement changes, and gives its answer: of an insert `Inserted`, or `Duplicate` where the
    /// session sees a row with the key; of an update and a delete `Done`, or `Missing` where it sees none; of a delete
    /// where the keys that were selected. No need may be left, and no other session may have written what this one
    /// writes. It takes no memory.
    pub fn finish(self, s: Session, rows: &mut Rows, cells: &mut CellRows) -> Answer
        requires writes { Writes self.statement }
        requires sound { IsSoundStatement self.statement }
        requires alone { IsAlone s rows.old.rows cells.old.rows self }
        ensures { Finishes s rows.old.rows cells.old.rows rows.new.rows cells.new.rows self result }
    {
        rows.in_order();
        let Change {
            statement,
            cells: list,
            selected,
            place: _,
        } = self;
        match statement {
            Statement::Insert(key, shape) => insert(s, key, shape, &list, rows, cells),
            Statement::Update(key, shape) => edit(s, key, Some(shape), &list, rows, cells),
            Statement::Delete(key) => edit(s, key, None, &list, rows, cells),
            _ => {
                remove(s, &selected, &list, rows, cells);
                Answer::Deleted(selected)
            }
        }
    }
}

/// The cells of the shape that the statement leaves.
fn cells_of<C: CellJudge>(
    alloc: Global,
    judge: &C,
    settings: &Settings,
    statement: &Statement,
) -> Result<CellList, AllocError>
    requires { IsSoundStatement statement.now }
    ensures { IfOk result (λ list. list ≡ new_cells settings.now.grid statement.now) }
{
    match statement {
        Statement::Insert(_, shape) => cells_in(alloc, judge, settings, shape),
        Statement::Update(_, shape) => cells_in(alloc, judge, settings, shape),
        _ => Ok(CellList::new(alloc)),
    }
}

fn cells_in<C: CellJudge>(
    alloc: Global,
    judge: &C,
    settings: &Settings,
    shape: &Shape,
) -> Result<CellList, AllocError>
    requires { IsSound shape.now }
    ensures { IfOk result (λ list. list ≡ cells_in settings.now.grid shape.now) }
{
    match &settings.grid {
        None => Ok(CellList::new(alloc)),
        Some(grid) => tessellate(alloc, judge, grid, grid.cells(), shape),
    }
}

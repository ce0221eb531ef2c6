//! What finished changes answer in a table without an index.

ghost use Rattle.std.specs.Prelude.{IsTrue, IfOk};
ghost use Rattle.sg_plain.specs.Sat.{IsSoundStatement};
ghost use Rattle.sg_rows.specs.Table as table;
ghost use Rattle.sg_writes.specs.Changes.{Writes};
ghost use Rattle.sg_writes.specs.Finished.{IsFree, AreFree, IsReady, IsAlone};

use crate::Change;
use crate::moved::next_moved;
use sg_cellrows::CellRows;
use sg_cells::{CellList, Settings};
use sg_celltest::CellTest;
use sg_modes::Session;
use sg_plain::{Answer, KeyList, Statement};
use sg_rows::Rows;
use sg_shape::{Shape, Spot};
use std::alloc::{AllocError, Global};
use std::test::Fail;

/// Whether the row's key is there, and nobody else has written it.
fn is_free_row(s: Session, row: u32, rows: &Rows) -> bool
    ensures { IsTrue result → IsFree s (table.version_at rows.now.rows row) }
{
    if !rows.present(row) {
        return false;
    }
    match rows.writer(row) {
        None => true,
        Some(writer) => writer == s,
    }
}

/// Whether no cell of the row comes, goes or changes its mark.
fn is_still(s: Session, row: u32, list: &CellList, cells: &CellRows) -> bool
    ensures { IsTrue result → AreFree s cells.now.rows list.now row }
{
    next_moved(cells, s, row, list, None).is_none()
}

fn is_ready(s: Session, row: u32, list: &CellList, rows: &Rows, cells: &CellRows) -> bool
    ensures { IsTrue result → IsReady s rows.now.rows cells.now.rows list.now row }
{
    is_free_row(s, row, rows) && is_still(s, row, list, cells)
}

/// Of a change of one row: whether nobody else has written it.
fn is_alone(change: &Change, s: Session, rows: &Rows, cells: &CellRows) -> bool
    ensures { IsTrue result → IsAlone s rows.now.rows cells.now.rows change.now }
{
    match &change.statement {
        Statement::Insert(key, _) => is_ready(s, *key, &change.cells, rows, cells),
        Statement::Update(key, _) => is_ready(s, *key, &change.cells, rows, cells),
        Statement::Delete(key) => is_ready(s, *key, &change.cells, rows, cells),
        _ => false,
    }
}

/// The session puts the key of row 1, if it isn't there.
fn put_key(s: Session, rows: &mut Rows) -> Result<(), AllocError> {
    rows.reserve(1)?;
    if !rows.present(1) {
        rows.put_reserved(s, 1);
    }
    Ok(())
}

/// The change of the statement.
fn change_of(alloc: Global, statement: Statement) -> Result<Change, AllocError>
    requires writes { Writes statement }
    requires sound { IsSoundStatement statement }
    ensures writes { IfOk result (λ it. Writes it.statement) }
    ensures sound { IfOk result (λ it. IsSoundStatement it.statement) }
{
    let settings = Settings {
        grid: None,
        window: 64,
    };
    match Change::of(alloc, &CellTest, &settings, statement, KeyList::new(alloc)) {
        Err(_) => Err(AllocError),
        Ok(change) => Ok(change),
    }
}

/// What a statement answers, in short.
#[derive(Clone, Copy, PartialEq, Eq)]
enum Short {
    Inserted,
    Duplicate,
    Done,
    Missing,
    Other,
    /// Another session is in the way.
    Kept,
    /// Memory was wanting.
    Wanting,
}

fn in_short(answer: &Answer) -> Short {
    match answer {
        Answer::Inserted => Short::Inserted,
        Answer::Duplicate => Short::Duplicate,
        Answer::Done => Short::Done,
        Answer::Missing => Short::Missing,
        _ => Short::Other,
    }
}

/// What the change answers on row 1, whose key is put first.
fn finished(alloc: Global, s: Session, change: Change, rows: &mut Rows) -> Short
    requires writes { Writes change.statement }
    requires sound { IsSoundStatement change.statement }
{
    let mut cells = CellRows::new(alloc);
    if put_key(s, rows).is_err() {
        return Short::Wanting;
    }
    if is_alone(&change, s, rows, &cells) {
        in_short(&change.finish(s, rows, &mut cells))
    } else {
        Short::Kept
    }
}

/// What the statement on row 1 answers, whose key is put first.
fn answered(alloc: Global, s: Session, statement: Statement, rows: &mut Rows) -> Short
    requires writes { Writes statement }
    requires sound { IsSoundStatement statement }
{
    match change_of(alloc, statement) {
        Ok(change) => finished(alloc, s, change, rows),
        Err(_) => Short::Wanting,
    }
}

/// What an insert of the row 1 at (5, 5) answers.
fn insert_one(alloc: Global, s: Session, rows: &mut Rows) -> Short {
    let insert = Statement::Insert(1, Shape::Point(Spot { x: 5, y: 5 }));
    answered(alloc, s, insert, rows)
}

/// What an update of it to (50, 50) answers.
fn update_one(alloc: Global, s: Session, rows: &mut Rows) -> Short {
    let update = Statement::Update(1, Shape::Point(Spot { x: 50, y: 50 }));
    answered(alloc, s, update, rows)
}

/// What its delete answers.
fn delete_one(alloc: Global, s: Session, rows: &mut Rows) -> Short {
    answered(alloc, s, Statement::Delete(1), rows)
}

// A row is put once.
#[test]
fn a_row_is_put_once(rt: HostRuntime) -> Result<(), Fail> {
    let s = Session::new(1).ok_or("a session")?;
    let mut rows = Rows::new(rt.alloc());
    assert!(rt; insert_one(rt.alloc(), s, &mut rows) == Short::Inserted);
    assert!(rt; insert_one(rt.alloc(), s, &mut rows) == Short::Duplicate);
    assert!(rt; update_one(rt.alloc(), s, &mut rows) == Short::Done);
    Ok(())
}

// A row is gone after its delete.
#[test]
fn a_row_goes(rt: HostRuntime) -> Result<(), Fail> {
    let s = Session::new(1).ok_or("a session")?;
    let mut rows = Rows::new(rt.alloc());
    assert!(rt; insert_one(rt.alloc(), s, &mut rows) == Short::Inserted);
    assert!(rt; delete_one(rt.alloc(), s, &mut rows) == Short::Done);
    assert!(rt; update_one(rt.alloc(), s, &mut rows) == Short::Missing);
    Ok(())
}

// What one session has written no other may.
#[test]
fn another_session_is_in_the_way(rt: HostRuntime) -> Result<(), Fail> {
    let s = Session::new(1).ok_or("a session")?;
    let other = Session::new(2).ok_or("a session")?;
    let mut rows = Rows::new(rt.alloc());
    assert!(rt; insert_one(rt.alloc(), s, &mut rows) == Short::Inserted);
    assert!(rt; insert_one(rt.alloc(), other, &mut rows) == Short::Kept);
    Ok(())
}

//! What fresh changes need first.

ghost use Rattle.sg_plain.specs.Sat.{IsSoundStatement};
ghost use Rattle.sg_writes.specs.Changes.{Writes, IsFresh};

use crate::{Act, Change};
use sg_cellrows::CellRows;
use sg_cells::{Key, Settings};
use sg_celltest::CellTest;
use sg_locks::Locks;
use sg_modes::{Mode, Session};
use sg_plain::{KeyList, Query, Statement, Test};
use sg_rows::Rows;
use sg_shape::{Pred, Shape, Spot};
use std::alloc::{AllocError, Global};
use std::test::Fail;

/// What the session does first for the statement with these selected keys, in a table without an index.
fn first_act(
    alloc: Global,
    s: Session,
    statement: Statement,
    selected: KeyList,
    rows: &Rows,
    locks: &Locks<Key>,
) -> Result<Option<Act>, AllocError>
    requires writes { Writes statement }
    requires sound { IsSoundStatement statement }
{
    let settings = Settings {
        grid: None,
        window: 64,
    };
    match Change::of(alloc, &CellTest, &settings, statement, selected) {
        Err(_) => Err(AllocError),
        Ok(change) => Ok(need_of(change, s, rows, &CellRows::new(alloc), locks)),
    }
}

/// What a change that has not begun needs first.
fn need_of(
    mut change: Change,
    s: Session,
    rows: &Rows,
    cells: &CellRows,
    locks: &Locks<Key>,
) -> Option<Act>
    requires { IsFresh change }
{
    change.need(s, rows, cells, locks)
}

/// The insert of row 1 at a point.
fn insert_one() -> Statement
    ensures writes { Writes result }
    ensures sound { IsSoundStatement result }
{
    Statement::Insert(1, Shape::Point(Spot { x: 5, y: 5 }))
}

/// A lock table in which the session holds this key alone.
fn holding(alloc: Global, s: Session, key: Key, mode: Mode) -> Result<Locks<Key>, AllocError> {
    let mut locks: Locks<Key> = Locks::new(alloc);
    locks.reserve(1)?;
    locks.grant_reserved(s, key, mode);
    Ok(locks)
}

/// Puts the key 1.
fn put_key(rows: &mut Rows, s: Session) -> Result<(), AllocError> {
    rows.reserve(1)?;
    if !rows.present(1) {
        rows.put_reserved(s, 1);
    }
    Ok(())
}

/// A table in which the session has put the key 1.
fn with_key(alloc: Global, s: Session) -> Result<Rows, AllocError> {
    let mut rows = Rows::new(alloc);
    match put_key(&mut rows, s) {
        Ok(()) => Ok(rows),
        Err(wanting) => Err(wanting),
    }
}

/// Whether the act puts row 1 below the end of the rows, in this mode.
fn puts_row(act: Option<Act>, mode: Mode) -> bool {
    match act {
        Some(
            Act::New {
                key: Key::Row(1),
                next: Key::RowEnd,
                mode: found,
            },
        ) => found == mode,
        _ => false,
    }
}

/// Whether the act asks for this key in this mode.
fn locks_key(act: Option<Act>, key: Key, mode: Mode) -> bool {
    match act {
        Some(Act::Lock(found, asked)) => found == key && asked == mode,
        _ => false,
    }
}

/// Whether the insert first puts row 1 below the end of the rows, in this mode.
fn inserts(alloc: Global, s: Session, locks: &Locks<Key>, mode: Mode) -> bool {
    let none = KeyList::new(alloc);
    match first_act(alloc, s, insert_one(), none, &Rows::new(alloc), locks) {
        Ok(act) => puts_row(act, mode),
        Err(_) => false,
    }
}

/// What a delete of row 1 does first.
fn deletes(
    alloc: Global,
    s: Session,
    rows: &Rows,
    locks: &Locks<Key>,
) -> Result<Option<Act>, AllocError> {
    let none = KeyList::new(alloc);
    first_act(alloc, s, Statement::Delete(1), none, rows, locks)
}

/// Whether the delete first asks for this key in this mode.
fn delete_locks(
    alloc: Global,
    s: Session,
    rows: &Rows,
    locks: &Locks<Key>,
    key: Key,
    mode: Mode,
) -> bool {
    match deletes(alloc, s, rows, locks) {
        Ok(act) => locks_key(act, key, mode),
        Err(_) => false,
    }
}

/// Whether the delete needs nothing.
fn delete_is_free(alloc: Global, s: Session, rows: &Rows, locks: &Locks<Key>) -> bool {
    match deletes(alloc, s, rows, locks) {
        Ok(act) => act.is_none(),
        Err(_) => false,
    }
}

/// What a delete where of the keys that were selected does first, in an empty table.
fn deletes_selected(
    alloc: Global,
    s: Session,
    selected: KeyList,
) -> Result<Option<Act>, AllocError> {
    let delete = Statement::DeleteWhere(Query {
        test: Test::Relate(Pred::Intersects),
        shape: Shape::Point(Spot { x: 5, y: 5 }),
    });
    first_act(
        alloc,
        s,
        delete,
        selected,
        &Rows::new(alloc),
        &Locks::new(alloc),
    )
}

fn selected_is_locked(alloc: Global, s: Session) -> bool {
    let mut selected = KeyList::new(alloc);
    if selected.push(1).is_err() {
        return false;
    }
    match deletes_selected(alloc, s, selected) {
        Ok(act) => locks_key(act, Key::Row(1), Mode::X),
        Err(_) => false,
    }
}

// A new key stands below the next one, in X.
#[test]
fn a_new_key(rt: HostRuntime) -> Result<(), Fail> {
    let s = Session::new(1).ok_or("a session")?;
    assert!(rt; inserts(rt.alloc(), s, &Locks::new(rt.alloc()), Mode::X));
    Ok(())
}

// It stands there in RangeX-X where its session locks the gap.
#[test]
fn a_new_key_keeps_its_own_gap(rt: HostRuntime) -> Result<(), Fail> {
    let s = Session::new(1).ok_or("a session")?;
    let locks = holding(rt.alloc(), s, Key::RowEnd, Mode::RangeSS)?;
    assert!(rt; inserts(rt.alloc(), s, &locks, Mode::RangeXX));
    Ok(())
}

// A row that is absent is locked by its gap.
#[test]
fn an_absent_row_is_locked(rt: HostRuntime) -> Result<(), Fail> {
    let s = Session::new(1).ok_or("a session")?;
    let rows = Rows::new(rt.alloc());
    let locks = Locks::new(rt.alloc());
    assert!(rt; delete_locks(rt.alloc(), s, &rows, &locks, Key::RowEnd, Mode::RangeSS));
    Ok(())
}

// One that is there is locked in X.
#[test]
fn a_row_is_locked(rt: HostRuntime) -> Result<(), Fail> {
    let s = Session::new(1).ok_or("a session")?;
    let rows = with_key(rt.alloc(), s)?;
    let locks = Locks::new(rt.alloc());
    assert!(rt; delete_locks(rt.alloc(), s, &rows, &locks, Key::Row(1), Mode::X));
    Ok(())
}

fn holds_enough(alloc: Global, s: Session, rows: &Rows) -> bool {
    match holding(alloc, s, Key::Row(1), Mode::X) {
        Ok(locks) => delete_is_free(alloc, s, rows, &locks),
        Err(_) => false,
    }
}

// Nothing more of one that isn't seen.
#[test]
fn a_locked_row_needs_nothing(rt: HostRuntime) -> Result<(), Fail> {
    let s = Session::new(1).ok_or("a session")?;
    let rows = with_key(rt.alloc(), s)?;
    assert!(rt; holds_enough(rt.alloc(), s, &rows));
    Ok(())
}

// Each row that a delete where selects is locked.
#[test]
fn a_row_that_was_selected_is_locked(rt: HostRuntime) -> Result<(), Fail> {
    let s = Session::new(1).ok_or("a session")?;
    assert!(rt; selected_is_locked(rt.alloc(), s));
    Ok(())
}

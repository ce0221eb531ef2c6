ghost use Rattle.std.specs.Prelude.{◌≡◌, ◌≤◌, false};
ghost use Rattle.sg_shape.specs.Sound.{IsSound};
ghost use Rattle.sg_plain.specs.Sat.{IsSoundStatement};
ghost use Rattle.sg_db.specs.Callers.{is_live};

use sg_cells::Settings;
use sg_db::{Db, Naming, Seat};
use sg_plain::{Answer, PlainRows, Query, Statement, Test};
use sg_refine::Gate;
use sg_shape::{CellJudge, Judge, Kind, Pred, Shape, Spot};
use std::alloc::{AllocError, Global};
use std::sync::Wait;
use std::thread::{Threads, join};

/// The point that has this number twice.
fn spot(at: u8) -> Shape
    ensures { IsSound result }
{
    let shape = Shape::Point(Spot {
        x: i32::from(at),
        y: i32::from(at),
    });
    match shape.check() {
        Ok(()) => shape,
        Err(_) => Shape::Empty(Kind::Point),
    }
}

/// A table without an index.
pub fn no_index() -> Settings
    ensures least { 1 ≤ result.window }
    ensures most { result.window ≤ 8192 }
{
    Settings {
        grid: None,
        window: 64,
    }
}

/// Two rows with the keys 1 and 2, each a point at its key.
pub fn two_rows(alloc: Global) -> Result<PlainRows, AllocError> {
    let mut rows = PlainRows::new(alloc);
    rows.push(1, spot(1))?;
    rows.push(2, spot(2))?;
    Ok(rows)
}

/// Asks for the rows at a spot.
pub fn intersecting(at: u8) -> Statement
    ensures { IsSoundStatement result }
{
    Statement::Select(Query {
        test: Test::Relate(Pred::Intersects),
        shape: spot(at),
    })
}

/// Inserts a row at a spot.
pub fn insert(key: u32, at: u8) -> Statement
    ensures { IsSoundStatement result }
{
    Statement::Insert(key, spot(at))
}

/// Moves a row to a spot.
pub fn update(key: u32, at: u8) -> Statement
    ensures { IsSoundStatement result }
{
    Statement::Update(key, spot(at))
}

/// Executes the statement in a transaction of its own; whether it was committed.
pub fn do_one<
    R: Threads + Wait + Sync,
    N: Naming,
    J: Judge + Copy + Send + Sync,
    C: CellJudge + Copy + Send + Sync,
    G: Gate + Sync + Drop,
>(rt: &R, db: &Db<N, J, C, G>, seat: &mut Seat, statement: Statement) -> bool
    requires table { seat.old.table ≡ db.now }
    requires sound { IsSoundStatement statement }
    ensures { seat.new.table ≡ seat.old.table }
{
    if db.execute(rt, seat, statement).is_err() {
        return false;
    }
    let _ = db.commit(rt, seat);
    true
}

/// Moves a row to a spot in a transaction of its own; whether it was committed.
fn move_one<
    R: Threads + Wait + Sync,
    N: Naming,
    J: Judge + Copy + Send + Sync,
    C: CellJudge + Copy + Send + Sync,
    G: Gate + Sync + Drop,
>(rt: &R, db: &Db<N, J, C, G>, seat: &mut Seat, key: u32, at: u8) -> bool
    requires { seat.old.table ≡ db.now }
    ensures { seat.new.table ≡ seat.old.table }
{
    do_one(rt, db, seat, update(key, at))
}

/// Finds the rows at a spot in a transaction of its own; whether it was committed.
fn find_at<
    R: Threads + Wait + Sync,
    N: Naming,
    J: Judge + Copy + Send + Sync,
    C: CellJudge + Copy + Send + Sync,
    G: Gate + Sync + Drop,
>(rt: &R, db: &Db<N, J, C, G>, seat: &mut Seat, at: u8) -> bool
    requires { seat.old.table ≡ db.now }
    ensures { seat.new.table ≡ seat.old.table }
{
    do_one(rt, db, seat, intersecting(at))
}

/// Moves one row and then another to a spot in one transaction; whether it was committed.
fn move_both<
    R: Threads + Wait + Sync,
    N: Naming,
    J: Judge + Copy + Send + Sync,
    C: CellJudge + Copy + Send + Sync,
    G: Gate + Sync + Drop,
>(rt: &R, db: &Db<N, J, C, G>, seat: &mut Seat, first: (u32, u8), second: (u32, u8)) -> bool
    requires { seat.old.table ≡ db.now }
    ensures { seat.new.table ≡ seat.old.table }
{
    if db.execute(rt, seat, update(first.0, first.1)).is_err() {
        return false;
    }
    if db.execute(rt, seat, update(second.0, second.1)).is_err() {
        return false;
    }
    let _ = db.commit(rt, seat);
    true
}

/// The x of the row's point, as a transaction of its own finds it.
pub fn x_of<
    R: Threads + Wait + Sync,
    N: Naming,
    J: Judge + Copy + Send + Sync,
    C: CellJudge + Copy + Send + Sync,
    G: Gate + Sync + Drop,
>(rt: &R, db: &Db<N, J, C, G>, seat: &mut Seat, key: u32) -> Option<i32>
    requires { seat.old.table ≡ db.now }
    ensures { seat.new.table ≡ seat.old.table }
{
    let Ok(answer) = db.execute(rt, seat, Statement::Get(key)) else {
        return None;
    };
    let _ = db.commit(rt, seat);
    match answer {
        Answer::Found(Shape::Point(spot)) => Some(spot.x),
        _ => None,
    }
}

/// What a caller does in one transaction.
#[derive(Clone, Copy)]
pub enum Task {
    /// Finds the rows at a spot.
    Find(u8),
    /// Moves a row to a spot.
    Move(u32, u8),
    /// Moves one row and then another.
    MoveBoth((u32, u8), (u32, u8)),
}

/// Does the task; whether its transaction was committed.
pub fn do_task<
    R: Threads + Wait + Sync,
    N: Naming,
    J: Judge + Copy + Send + Sync,
    C: CellJudge + Copy + Send + Sync,
    G: Gate + Sync + Drop,
>(rt: &R, db: &Db<N, J, C, G>, seat: &mut Seat, task: Task) -> bool
    requires { seat.old.table ≡ db.now }
    ensures { seat.new.table ≡ seat.old.table }
{
    match task {
        Task::Find(at) => find_at(rt, db, seat, at),
        Task::Move(key, at) => move_one(rt, db, seat, key, at),
        Task::MoveBoth(first, second) => move_both(rt, db, seat, first, second),
    }
}

/// Two callers do their tasks in threads of their own.
pub fn beside<
    R: Threads + Wait + Sync,
    N: Naming + Send + Sync,
    J: Judge + Copy + Send + Sync,
    C: CellJudge + Copy + Send + Sync,
    G: Gate + Sync + Drop,
>(
    rt: &R,
    db: &Db<N, J, C, G>,
    one: &mut Seat,
    two: &mut Seat,
    first: Task,
    second: Task,
) -> (bool, bool)
    requires one { one.old.table ≡ db.now }
    requires two { two.old.table ≡ db.now }
{
    join(
        rt,
        move ||
            requires { one.now.table ≡ db.now }
        { do_task(rt, db, one, first) },
        move ||
            requires { two.now.table ≡ db.now }
        { do_task(rt, db, two, second) },
    )
}

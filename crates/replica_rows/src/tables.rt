//! A table with one session, which waits for nobody.
ghost use Rattle.std.specs.Prelude.{◌≡◌, [], IfOk};
ghost use Rattle.sg_plain.specs.Sat.{IsSoundStatement};
ghost use Rattle.sg_shape.specs.Sound.{IsSound};
ghost use Rattle.replica_rows.specs.Courses.{GoesOn, IsCourse};

use crate::stops::Stop;
use sg_cells::Settings;
use sg_celltest::CellTest;
use sg_engine::{Engine, Step};
use sg_modes::{Priorities, Session};
use sg_plain::{PlainRows, Query, Statement, Test};
use sg_refine::{OpenGate, RefineJob, refine};
use sg_relate::Relate;
use sg_shape::{Pred, Shape, Spot};
use sg_trace::Cause;
use std::alloc::{AllocError, Global};
use std::thread::Threads;

/// The engine of a table.
pub type Table = Engine<Relate, CellTest>;

/// How many steps a statement has at most.
const STEPS: u32 = 1_000_000;

/// A point.
pub fn point(x: i32, y: i32) -> Result<Shape, Stop>
    ensures { IfOk result IsSound }
{
    let shape = Shape::Point(Spot { x, y });
    match shape.check() {
        Ok(()) => Ok(shape),
        Err(_) => Err(Stop::Unexpected),
    }
}

/// What asks for the rows that meet a shape.
pub fn meeting(shape: Shape) -> Query
    requires { IsSound shape }
    ensures test { result.test ≡ Test.Relate Pred.Intersects }
    ensures shape { result.shape ≡ shape }
{
    Query {
        test: Test::Relate(Pred::Intersects),
        shape,
    }
}

/// A table of these rows, without an index.
pub fn open<R: Threads + Sync>(rt: &R, alloc: Global, rows: PlainRows) -> Result<Table, AllocError>
    ensures course { IfOk result IsCourse }
    ensures opening { IfOk result (λ it. it.stage.opening ≡ rows) }
    ensures journal { IfOk result (λ it. it.journal ≡ []) }
{
    let settings = Settings {
        grid: None,
        window: 8,
    };
    Engine::open(
        rt,
        alloc,
        Relate,
        CellTest,
        settings,
        rows,
        Priorities::new(),
    )
}

/// Begins a transaction.
pub fn begin(table: &mut Table, s: Session) -> Result<(), Stop>
    ensures { GoesOn table.old table.new }
{
    if table.is_live(s) {
        return Err(Stop::Unexpected);
    }
    match table.begin(s) {
        Ok(()) => Ok(()),
        Err(_) => Err(Stop::Memory),
    }
}

/// Executes a statement of the transaction.
pub fn execute<R: Threads + Sync>(
    rt: &R,
    alloc: Global,
    table: &mut Table,
    s: Session,
    statement: Statement,
) -> Result<(), Stop>
    requires { IsSoundStatement statement }
    ensures { GoesOn table.old table.new }
{
    ask(table, s, statement)?;
    for _ in 0..STEPS {
        if go_on(rt, alloc, table, s)? {
            return Ok(());
        }
    }
    Err(Stop::Unexpected)
}

fn ask(table: &mut Table, s: Session, statement: Statement) -> Result<(), Stop>
    requires { IsSoundStatement statement }
    ensures { GoesOn table.old table.new }
{
    if !table.is_live(s) {
        return Err(Stop::Unexpected);
    }
    if table.is_open(s) {
        return Err(Stop::Unexpected);
    }
    match table.ask(s, statement) {
        Ok(()) => Ok(()),
        Err(_) => Err(Stop::Memory),
    }
}

/// One step, and whether the statement is answered.
fn go_on<R: Threads + Sync>(
    rt: &R,
    alloc: Global,
    table: &mut Table,
    s: Session,
) -> Result<bool, Stop>
    ensures { GoesOn table.old table.new }
{
    match table.step(s) {
        Ok(Step::Took(_, _)) | Ok(Step::Put(_, _)) => Ok(false),
        Ok(Step::Answered) => Ok(true),
        Ok(Step::Job(job)) => hand_in(rt, alloc, table, s, job),
        Ok(_) => Err(Stop::Unexpected),
        Err(_) => Err(Stop::Memory),
    }
}

/// Refines the job and hands its result in.
fn hand_in<R: Threads + Sync>(
    rt: &R,
    alloc: Global,
    table: &mut Table,
    s: Session,
    job: RefineJob,
) -> Result<bool, Stop>
    ensures { GoesOn table.old table.new }
{
    let Ok(done) = refine(rt, alloc, &Relate, 1, &OpenGate, job) else {
        return Err(Stop::Memory);
    };
    match table.deliver(s, done) {
        Ok(()) => Ok(false),
        Err(_) => Err(Stop::Unexpected),
    }
}

/// Commits the transaction.
pub fn commit(table: &mut Table, s: Session) -> Result<(), Stop>
    ensures { GoesOn table.old table.new }
{
    if !table.is_live(s) {
        return Err(Stop::Unexpected);
    }
    if table.is_open(s) {
        return Err(Stop::Unexpected);
    }
    table.commit(s);
    Ok(())
}

/// Rolls the transaction back.
pub fn roll_back(table: &mut Table, s: Session) -> Result<(), Stop>
    ensures { GoesOn table.old table.new }
{
    if !table.is_live(s) {
        return Err(Stop::Unexpected);
    }
    if table.is_open(s) {
        return Err(Stop::Unexpected);
    }
    table.rollback(s, Cause::Asked);
    Ok(())
}

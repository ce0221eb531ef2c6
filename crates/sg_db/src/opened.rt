ghost use Rattle.std.specs.Prelude.{◌≡◌, ◌≤◌, IfOk, IfSome};
ghost use Rattle.sg_cells.specs.Cells.{IsGrid};
ghost use Rattle.sg_db.specs.Seatings.{seats_of};

use crate::calls::Db;
use crate::locked::{Locked, Naming};
use crate::seating::Seats;
use sg_cells::Settings;
use sg_engine::Engine;
use sg_history::{Counter, Opening, Token};
use sg_modes::Priorities;
use sg_plain::PlainRows;
use sg_refine::Gate;
use sg_shape::{CellJudge, Judge};
use std::alloc::{AllocError, Global};
use std::marker::{Model, PhantomData};
use std::sync::{Condvar, Mutex};
use std::thread::Threads;

/// The parts of a table that callers are to share, which has no name and no lock yet.
#[derive(Drop)]
pub struct Opened<
    J: Judge + Copy + Send + Sync,
    C: CellJudge + Copy + Send + Sync,
    G: Gate + Sync + Drop,
> {
    engine: Engine<J, C>,
    counter: Counter,
    pen: Token,
    seats: Seats,
    workers: u32,
    gate: G,
    alloc: Global,
}

impl<J: Judge + Copy + Send + Sync, C: CellJudge + Copy + Send + Sync, G: Gate + Sync + Drop> Model
    for Opened<J, C, G> {
    ghost use Rattle.sg_db.specs.Seatings.{OpenedShown, IsOpened};

    ghost Value = { OpenedShown };

    ghost view = { λ o. record { table = o.counter; stage = o.engine.stage; callers = o.seats.left } };

    ghost invariant = { λ o. IsOpened o.counter o.engine o.pen o.seats o.workers };
}

/// A table under a name, and the seats of its callers.
#[derive(Drop)]
pub struct Named<
    N: Naming,
    J: Judge + Copy + Send + Sync,
    C: CellJudge + Copy + Send + Sync,
    G: Gate + Sync + Drop,
> {
    /// What the callers share.
    pub db: Db<N, J, C, G>,
    /// A seat of each.
    pub seats: Seats,
}

impl<
    J: Judge + Copy + Send + Sync,
    C: CellJudge + Copy + Send + Sync,
    G: Gate + Sync + Drop,
> Opened<J, C, G> {
    /// A table of these rows for 1 to 64 callers, and 1 to 64 workers that refine for each of them. The window is 1 to
    /// 8192. `AllocError` is want of memory.
    pub fn open<R: Threads + Sync>(
        rt: &R,
        alloc: Global,
        judge: J,
        cell_judge: C,
        settings: Settings,
        rows: PlainRows,
        priorities: Priorities,
        callers: u8,
        workers: u32,
        gate: G,
    ) -> Result<Opened<J, C, G>, AllocError>
        requires least_window { 1 ≤ settings.window }
        requires most_window { settings.window ≤ 8192 }
        requires least_callers { 1 ≤ callers }
        requires most_callers { callers ≤ 64 }
        requires least_workers { 1 ≤ workers }
        requires most_workers { workers ≤ 64 }
        ensures stage { IfOk result (λ it. it.stage ≡ record { settings = settings; opening = rows; priorities = priorities }) }
        ensures callers { IfOk result (λ it. it.callers ≡ callers) }
    {
        check_grid(&settings);
        priorities.in_range();
        rows.in_order();
        let opening = Opening {
            settings,
            rows,
            priorities,
        };
        let (counter, mut pen) = Counter::open(alloc, &opening)?;
        let seats = Seats::of(alloc, &counter, &mut pen, callers)?;
        let Opening {
            settings,
            rows,
            priorities,
        } = opening;
        let engine = Engine::open(rt, alloc, judge, cell_judge, settings, rows, priorities)?;
        Ok(Opened {
            engine,
            counter,
            pen,
            seats,
            workers,
            gate,
            alloc,
        })
    }

    /// The table under its name. It takes no memory.
    pub fn named<N: Naming + Send + Sync>(self) -> Named<N, J, C, G>
        requires { self.table ≡ N.table }
        ensures db { result.db ≡ self.table }
        ensures seats { result.seats ≡ seats_of self }
    {
        let Opened {
            engine,
            counter,
            pen,
            seats,
            workers,
            gate,
            alloc,
        } = self;
        let judge = engine.judge();
        let db = Db {
            counter,
            lock: Mutex::new(Locked::new(engine, pen)),
            ended: Condvar::new(),
            judge,
            workers,
            gate,
            alloc,
        };
        Named { db, seats }
    }
}

/// A grid's limits are those that its type keeps.
fn check_grid(settings: &Settings)
    ensures { IfSome settings.now.grid IsGrid }
{
    if let Some(grid) = &settings.grid {
        grid.in_limits();
    }
}

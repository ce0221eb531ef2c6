ghost use Rattle.std.specs.Prelude.{◌≡◌, ◌≤◌, ℕ, [], length, IfOk, IfSome};
ghost use Rattle.std.specs.List.{AllByRecursion};
ghost use Rattle.sg_cells.specs.Cells.{IsGrid};
ghost use Rattle.sg_trace.specs.Legal.{IsStage};
ghost use Rattle.sg_engine.specs.Shown.{IsRunOf, job_in, no_job};
ghost use Rattle.sg_engine.specs.Inside.{IsUnused};

use crate::shared::{Seat, Shared};
use sg_cells::Settings;
use sg_locks::Locks;
use sg_modes::Priorities;
use sg_plain::PlainRows;
use sg_scan::load;
use sg_shape::CellJudge;
use sg_trace::{Journal, Roomy, Trace};
use sg_waits::Waits;
use std::alloc::{AllocError, Global};
use std::thread::Threads;

impl Shared {
    /// A table of these rows, all of them committed, in which no session has a transaction. The window is 1 to 8192.
    /// `AllocError` is want of memory.
    pub(crate) fn open<R: Threads + Sync, C: CellJudge + Sync>(
        rt: &R,
        alloc: Global,
        judge: &C,
        settings: Settings,
        rows: PlainRows,
        priorities: Priorities,
    ) -> Result<Shared, AllocError>
        requires least { 1 ≤ settings.window }
        requires most { settings.window ≤ 8192 }
        ensures stage { IfOk result (λ it. it.stage ≡ record { settings = settings; opening = rows; priorities = priorities }) }
        ensures run { IfOk result (IsRunOf []) }
        ensures jobs { IfOk result (λ it. (s : ℕ) → job_in it.jobs s ≡ no_job) }
        ensures staged { IfOk result (λ it. IsStage it.stage) }
    {
        check_grid(&settings);
        priorities.in_range();
        rows.in_order();
        let opening = rows.copy(alloc)?;
        let loaded = load(rt, alloc, judge, &settings, rows)?;
        loaded.cells.rising();
        let locks = Locks::new(alloc);
        let waits = Waits::new();
        let trace: Trace = Roomy::new(alloc);
        let journal: Journal = Roomy::new(alloc);
        let seats = unused_seats(alloc)?;
        Ok(Shared {
            settings,
            opening,
            priorities,
            rows: loaded.rows,
            cells: loaded.cells,
            locks,
            waits,
            trace,
            journal,
            seats,
            live: 0,
            alloc,
        })
    }
}

/// A seat of each session, with no transaction yet.
fn unused_seats(alloc: Global) -> Result<Vec<Seat>, AllocError>
    ensures length { IfOk result (λ seats. length seats.items ≡ 64) }
    ensures unused { IfOk result (λ seats. AllByRecursion IsUnused seats.items) }
{
    let mut seats = Vec::new(alloc);
    for _ in 0..64_usize {
        seats.push(Seat {
            begun: 0,
            wish: None,
            running: None,
        })?;
    }
    Ok(seats)
}

/// A grid's limits are those that its type keeps.
fn check_grid(settings: &Settings)
    ensures { IfSome settings.now.grid IsGrid }
{
    if let Some(grid) = &settings.grid {
        grid.in_limits();
    }
}

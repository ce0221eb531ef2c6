ghost use Rattle.std.specs.Prelude.{◌≡◌, true, None, IfSome, IsSome};
ghost use Rattle.sg_writes.specs.Changes.{IsBehindHeld, IsFirstAct};
ghost use Rattle.sg_engine.specs.Shown.{job_in};
ghost use Rattle.sg_engine.specs.Inside.{SeatChanges};
ghost use Rattle.sg_engine.specs.Nexts.{IsNextAct, WaitsForNone, HasReadAll};
ghost use Rattle.sg_engine.specs.Acting.{act_of, change_in, change_of, IsNearer};
ghost use Rattle.sg_engine.specs.Searches.{OnlyPending};
ghost use Rattle.sg_engine.specs.Steps.{HasAllMet};

use crate::shared::{Pending, Seat, Shared, Work};
use sg_cellrows::CellRows;
use sg_cells::Key;
use sg_locks::Locks;
use sg_modes::Session;
use sg_rows::Rows;
use sg_writes::Act;

impl Shared {
    /// What the session asks for next to write its open statement: `None` where it has all. It must have come to its
    /// writes and may not wait. It takes no memory.
    pub(crate) fn next_act(&mut self, s: Session) -> Option<Act>
        requires writes { (job_in self.old.jobs s).writes ≡ true }
        requires free { WaitsForNone self.old s }
        requires read { HasReadAll self.old s }
        ensures same { self.new ≡ self.old }
        ensures act { IfSome result (λ act. IsNextAct self.old s (act_of act)) }
        ensures none { result ≡ None → HasAllMet self.old s }
    {
        s.in_range();
        act_at(
            &mut self.seats[s.index()],
            s,
            &self.rows,
            &self.cells,
            &self.locks,
        )
    }
}

/// What the seat's change needs first and hasn't. There must be one.
fn act_at(
    seat: &mut Seat,
    s: Session,
    rows: &Rows,
    cells: &CellRows,
    locks: &Locks<Key>,
) -> Option<Act>
    requires writes { IsSome (change_of seat.old) }
    requires behind { IfSome (change_of seat.old) (IsBehindHeld locks.now.grants s rows.now.rows cells.now.rows) }
    ensures act { IfSome (change_of seat.old) (λ change. IsFirstAct locks.now.grants s rows.now.rows cells.now.rows change result) }
    ensures seat { SeatChanges (OnlyPending (IsNearer locks.now.grants s rows.now.rows cells.now.rows)) seat.old seat.new }
{
    match &mut seat.running {
        None => unreachable!(),
        Some(running) => match &mut running.pending {
            None => unreachable!(),
            Some(pending) => pending.act(s, rows, cells, locks),
        },
    }
}

impl Pending {
    /// What the statement's change needs first and hasn't.
    fn act(&mut self, s: Session, rows: &Rows, cells: &CellRows, locks: &Locks<Key>) -> Option<Act>
        requires writes { IsSome (change_in self.old.work) }
        requires behind { IfSome (change_in self.old.work) (IsBehindHeld locks.now.grants s rows.now.rows cells.now.rows) }
        ensures act { IfSome (change_in self.old.work) (λ change. IsFirstAct locks.now.grants s rows.now.rows cells.now.rows change result) }
        ensures pending { IsNearer locks.now.grants s rows.now.rows cells.now.rows self.old self.new }
    {
        match &mut self.work {
            Work::Writes(change) => change.need(s, rows, cells, locks),
            _ => unreachable!(),
        }
    }
}

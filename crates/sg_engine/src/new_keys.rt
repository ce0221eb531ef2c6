ghost use Rattle.std.specs.Prelude.{◌≡◌, ◌+◌, ◌<◌, ◌^◌, [], ◌∷◌, OnOk, OnErr, IfSome};
ghost use Rattle.sg_modes.specs.declared.modes.Mode.TheVariants.{RangeIN};
ghost use Rattle.sg_trace.specs.Traces.{Put};
ghost use Rattle.sg_trace.specs.Legal.{Puts};
ghost use Rattle.sg_engine.specs.Shown.{Appends};
ghost use Rattle.sg_engine.specs.Nexts.{IsNextAct, IsFree, IsNew, HasNew, writing};

use crate::grants::cost_of;
use crate::shared::{Seat, Shared};
use sg_cellrows::CellRows;
use sg_cells::Key;
use sg_modes::{Mode, Session};
use sg_rows::Rows;
use sg_trace::Label;
use std::alloc::AllocError;

impl Shared {
    /// Puts and locks the key that the session's open statement asks for next, where nobody keeps the gap below the
    /// next key. `AllocError` is want of memory; nothing has changed then.
    pub(crate) fn put(
        &mut self,
        s: Session,
        key: Key,
        next: Key,
        mode: Mode,
    ) -> Result<(), AllocError>
        requires next { IsNextAct self.old s (Puts key next mode) }
        requires free { IsFree self.old s next RangeIN }
        ensures ok { OnOk result (Appends (Put s key mode ∷ []) self.old self.new) }
        ensures jobs { self.new.jobs ≡ self.old.jobs }
        ensures err { OnErr result (self.new ≡ self.old) }
    {
        s.in_range();
        let _free = self.locks.blockers(s, &key, mode).is_empty();
        self.trace.reserve(self.live + 1)?;
        self.locks.reserve(1)?;
        self.rows.reserve(1)?;
        self.cells.reserve(1)?;
        self.trace.countable();
        write_on(&mut self.seats[s.index()], mode);
        put_key(s, key, &mut self.rows, &mut self.cells);
        self.locks.grant_reserved(s, key, mode);
        self.trace.push_reserved(Label::Put {
            session: s,
            key,
            mode,
        });
        Ok(())
    }
}

/// Counts a new key of a statement that has read what it has to.
fn write_on(seat: &mut Seat, mode: Mode)
    requires { IfSome seat.old.running (λ r. r.cost + 1 < 2 ^ 64) }
    ensures { seat.new ≡ writing mode seat.old }
{
    if let Some(running) = &mut seat.running {
        running.cost += cost_of(mode);
        if let Some(pending) = &mut running.pending {
            pending.scan = None;
        }
    }
}

/// Adds the key of a row or of a cell.
fn put_key(s: Session, key: Key, rows: &mut Rows, cells: &mut CellRows)
    requires { IsNew rows.old cells.old key }
    ensures { HasNew s key rows.old.rows cells.old.rows rows.new.rows cells.new.rows }
{
    match key {
        Key::Row(row) => rows.put_reserved(s, row),
        Key::Cell(cell, row) => cells.put_reserved(s, (cell, row)),
        _ => unreachable!(),
    }
}

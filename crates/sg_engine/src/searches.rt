ghost use Rattle.std.specs.Prelude.{◌≡◌, ◌↔◌, true, None, IfOk, IfSome, IsSome, IsTrue, OnOk};
ghost use Rattle.sg_plain.specs.Sat.{IsSoundStatement};
ghost use Rattle.sg_trace.specs.Laws.{AreSettings};
ghost use Rattle.sg_trace.specs.Legal.{Takes};
ghost use Rattle.sg_scan.specs.Scans.{Asks};
ghost use Rattle.sg_engine.specs.Shown.{is_open_in};
ghost use Rattle.sg_engine.specs.Inside.{SeatChanges};
ghost use Rattle.sg_engine.specs.Nexts.{IsNextAct, WaitsForNone, HasReadAll};
ghost use Rattle.sg_engine.specs.Searches.{pending_of, OnlyPending, IsScanAt, IsSearched, IsReadNeed};

use crate::shared::{Pending, Seat, Shared};
use sg_cellrows::CellRows;
use sg_cells::{Key, Settings};
use sg_locks::Locks;
use sg_modes::{Mode, Session};
use sg_plain::Statement;
use sg_rows::Rows;
use sg_scan::Scan;
use sg_shape::CellJudge;
use std::alloc::{AllocError, Global};

impl Shared {
    /// What the session needs first to read for its open statement and hasn't: `None` where it has all. The session
    /// may not wait. `AllocError` is want of memory.
    pub(crate) fn search<C: CellJudge>(
        &mut self,
        judge: &C,
        s: Session,
    ) -> Result<Option<(Key, Mode)>, AllocError>
        requires open { is_open_in self.old s ≡ true }
        requires free { WaitsForNone self.old s }
        ensures same { self.new ≡ self.old }
        ensures take { IfOk result (λ need. IfSome need (λ p. IsNextAct self.old s (Takes p.0 p.1))) }
        ensures read { IfOk result (λ need. need ≡ None → HasReadAll self.old s) }
        ensures unread { HasReadAll self.old s → IfOk result (λ need. need ≡ None) }
    {
        s.in_range();
        let alloc = self.alloc;
        let seat = &mut self.seats[s.index()];
        let need = read_at(
            seat,
            alloc,
            judge,
            &self.settings,
            s,
            &self.rows,
            &self.cells,
            &self.locks,
        );
        need
    }
}

/// What the seat's open statement needs first to read and hasn't. There must be one.
fn read_at<C: CellJudge>(
    seat: &mut Seat,
    alloc: Global,
    judge: &C,
    settings: &Settings,
    s: Session,
    rows: &Rows,
    cells: &CellRows,
    locks: &Locks<Key>,
) -> Result<Option<(Key, Mode)>, AllocError>
    requires settings { AreSettings settings.now }
    requires open { IsSome (pending_of seat.old) }
    requires sound { IfSome (pending_of seat.old) (λ p. IsSoundStatement p.statement) }
    requires scan { IfSome (pending_of seat.old) (λ p. IfSome p.scan (IsScanAt settings.now locks.now.grants s rows.now.rows cells.now.rows p.statement)) }
    ensures seat { SeatChanges (OnlyPending (IsSearched settings.now locks.now.grants s rows.now.rows cells.now.rows)) seat.old seat.new }
    ensures need { IfOk result (λ need. IfSome (pending_of seat.old) (λ p. IsReadNeed settings.now locks.now.grants s rows.now.rows cells.now.rows p.statement need)) }
{
    match &mut seat.running {
        None => unreachable!(),
        Some(running) => match &mut running.pending {
            None => unreachable!(),
            Some(pending) => pending.need(alloc, judge, settings, s, rows, cells, locks),
        },
    }
}

impl Pending {
    /// What the statement needs first to read and hasn't.
    fn need<C: CellJudge>(
        &mut self,
        alloc: Global,
        judge: &C,
        settings: &Settings,
        s: Session,
        rows: &Rows,
        cells: &CellRows,
        locks: &Locks<Key>,
    ) -> Result<Option<(Key, Mode)>, AllocError>
        requires settings { AreSettings settings.now }
        requires sound { IsSoundStatement self.old.statement }
        requires scan { IfSome self.old.scan (IsScanAt settings.now locks.now.grants s rows.now.rows cells.now.rows self.old.statement) }
        ensures pending { IsSearched settings.now locks.now.grants s rows.now.rows cells.now.rows self.old self.new }
        ensures need { IfOk result (IsReadNeed settings.now locks.now.grants s rows.now.rows cells.now.rows self.old.statement) }
    {
        if !asks(&self.statement) {
            return Ok(None);
        }
        self.begin_to_read(alloc, judge, settings, s, rows, cells, locks)?;
        match &mut self.scan {
            None => unreachable!(),
            Some(scan) => Ok(scan.need(s, rows, cells, locks)),
        }
    }

    /// Sees to it that the statement, which asks about rows, has its scan.
    fn begin_to_read<C: CellJudge>(
        &mut self,
        alloc: Global,
        judge: &C,
        settings: &Settings,
        s: Session,
        rows: &Rows,
        cells: &CellRows,
        locks: &Locks<Key>,
    ) -> Result<(), AllocError>
        requires settings { AreSettings settings.now }
        requires asks { Asks self.old.statement }
        requires sound { IsSoundStatement self.old.statement }
        requires scan { IfSome self.old.scan (IsScanAt settings.now locks.now.grants s rows.now.rows cells.now.rows self.old.statement) }
        ensures pending { IsSearched settings.now locks.now.grants s rows.now.rows cells.now.rows self.old self.new }
        ensures scan { OnOk result (IsSome self.new.scan) }
    {
        if self.scan.is_some() {
            return Ok(());
        }
        let scan = Scan::of(alloc, judge, settings, &self.statement)?;
        self.scan = Some(scan);
        Ok(())
    }
}

/// Whether the statement asks about rows.
fn asks(statement: &Statement) -> bool
    ensures { IsTrue result ↔ Asks statement.now }
{
    match statement {
        Statement::Insert(_, _) | Statement::Update(_, _) | Statement::Delete(_) => false,
        Statement::Get(_)
        | Statement::Select(_)
        | Statement::Filter(_)
        | Statement::DeleteWhere(_)
        | Statement::Plan(_) => true,
    }
}

ghost use Rattle.std.specs.Prelude.{◌≡◌, ◌++◌, [], ◌∷◌, suc, length, true, is_some};
ghost use Rattle.sg_trace.specs.Traces.{Commit, Rollback};
ghost use Rattle.sg_engine.specs.Shown.{seat_in, IsBetween, Appends};
ghost use Rattle.sg_engine.specs.Ends.{MayRollBack, EndsJob, entry_in, entry_at, quit};

use crate::shared::{Seat, Shared};
use sg_modes::Session;
use sg_trace::{Cause, JournalEntry, Label};

impl Shared {
    /// Commits the session's transaction, in which no statement may be open, and gives its place among all commits,
    /// from 1. It takes no memory.
    pub(crate) fn commit(&mut self, s: Session) -> u64
        requires { IsBetween self.old s }
        ensures place { result ≡ suc (length self.old.journal) }
        ensures run { Appends (Commit s (suc (length self.old.journal)) ∷ []) self.old self.new }
        ensures entry { self.new.journal ≡ self.old.journal ++ entry_in s (seat_in self.old.seats s) ∷ [] }
        ensures job { EndsJob s self.old self.new }
    {
        s.in_range();
        self.waits.in_order();
        self.journal.countable();
        let place = self.journal.len() as u64 + 1;
        self.rows.keep(s);
        self.cells.keep(s);
        self.locks.release_all(s);
        self.waits.ended(s);
        let entry = close(&mut self.seats[s.index()], s);
        self.journal.push_reserved(entry);
        self.trace
            .push_reserved(Label::Commit { session: s, place });
        self.live -= 1;
        place
    }

    /// Rolls the session's transaction back: as its session asks, with no statement open, or for want of memory. It
    /// takes no memory.
    pub(crate) fn rollback(&mut self, s: Session, cause: Cause)
        requires { MayRollBack self.old s cause }
        ensures run { Appends (Rollback s cause ∷ []) self.old self.new }
        ensures job { EndsJob s self.old self.new }
    {
        s.in_range();
        self.waits.in_order();
        self.rows.undo(s);
        self.cells.undo(s);
        self.locks.release_all(s);
        self.waits.ended(s);
        abandon(&mut self.seats[s.index()]);
        self.trace
            .push_reserved(Label::Rollback { session: s, cause });
        self.live -= 1;
    }
}

/// Ends the transaction at the seat, and gives its journal entry.
fn close(seat: &mut Seat, s: Session) -> JournalEntry
    requires { is_some seat.old.running ≡ true }
    ensures entry { result ≡ entry_at s seat.old }
    ensures seat { seat.new ≡ quit seat.old }
{
    let transaction = seat.begun;
    match seat.running.take() {
        None => unreachable!(),
        Some(running) => JournalEntry::new(s, transaction, running.statements, running.answers),
    }
}

/// Drops the transaction at the seat, if there is one.
pub(crate) fn abandon(seat: &mut Seat)
    ensures { seat.new ≡ quit seat.old }
{
    seat.running = None;
}

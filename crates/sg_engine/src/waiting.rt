ghost use Rattle.std.specs.Prelude.{◌≡◌, ℕ, List, cond, length, true, Some, None, IfOk, OnErr};
ghost use Rattle.sg_modes.specs.Priorities.{priority_of};
ghost use Rattle.sg_modes.specs.Sessions.{has_session};
ghost use Rattle.sg_waits.specs.Ranks.{rank_of};
ghost use Rattle.sg_trace.specs.declared.labels.Label.TheVariants as label;
ghost use Rattle.sg_trace.specs.Traces.{Event, Wait};
ghost use Rattle.sg_trace.specs.Legal.{Fits};
ghost use Rattle.sg_engine.specs.Shown.{IsRunOf};
ghost use Rattle.sg_engine.specs.Waiting.{HasWaited, cost_at, rank_in, wishing};

use crate::ends::abandon;
use crate::shared::{Seat, Shared};
use sg_cells::Key;
use sg_modes::{Mode, Priorities, Session, Sessions};
use sg_trace::Label;
use sg_waits::{Rank, Ranks, victim};
use std::alloc::AllocError;

impl Shared {
    /// Makes the session wait for the others that keep it from the key, and rolls back the victim of each cycle of waits
    /// that this closes. Gives the cycle of which it was the victim itself. `AllocError` is want of memory; nothing has
    /// changed then.
    pub(crate) fn wait(
        &mut self,
        s: Session,
        key: Key,
        mode: Mode,
        blockers: Sessions,
    ) -> Result<Option<Sessions>, AllocError>
        requires { (es : List Event) → IsRunOf es self.old → Fits self.old.stage es (Wait s key mode blockers) }
        ensures ok { IfOk result (HasWaited s key mode blockers self.old self.new) }
        ensures err { OnErr result (self.new ≡ self.old) }
    {
        s.in_range();
        self.trace.reserve(self.live + 1)?;
        self.waits.in_order();
        let _seats = self.seats.len();
        self.waits.add(s, blockers);
        wish(&mut self.seats[s.index()], &key, mode);
        self.trace.push_reserved(waits(s, &key, mode, &blockers));
        let mut own = None;
        let mut cycle = self.waits.cycle(s);
        'cycles: while !cycle.is_empty() {
            let ranks = ranks_of(cycle, &self.priorities, &self.seats);
            let given = victim(cycle, &ranks);
            self.rows.undo(given);
            self.cells.undo(given);
            self.locks.release_all(given);
            self.waits.ended(given);
            abandon(&mut self.seats[given.index()]);
            self.trace.push_reserved(gives_way(given, &cycle));
            self.live -= 1;
            own = latest(own, given == s, cycle);
            cycle = self.waits.cycle(s);
        }
        Ok(own)
    }
}

/// The cycle that has just been broken, where the session itself gave way; else the one that was.
fn latest(own: Option<Sessions>, itself: bool, cycle: Sessions) -> Option<Sessions>
    ensures { result ≡ cond itself (Some cycle) own }
{
    if itself { Some(cycle) } else { own }
}

/// Notes for which key and mode the session waits.
fn wish(seat: &mut Seat, key: &Key, mode: Mode)
    ensures { seat.new ≡ wishing key.now mode seat.old }
{
    seat.wish = Some((*key, mode));
}

/// The label of a wait.
fn waits(s: Session, key: &Key, mode: Mode, blockers: &Sessions) -> Label
    ensures { result ≡ label.Wait s key.now mode blockers.now }
{
    Label::Wait {
        session: s,
        key: *key,
        mode,
        blockers: *blockers,
    }
}

/// The label of a victim.
fn gives_way(s: Session, cycle: &Sessions) -> Label
    ensures { result ≡ label.Victim s cycle.now }
{
    Label::Victim {
        session: s,
        cycle: *cycle,
    }
}

/// The ranks of these sessions.
fn ranks_of(cycle: Sessions, priorities: &Priorities, seats: &[Seat]) -> Ranks
    requires { length seats.now ≡ 64 }
    ensures { (u : ℕ) → has_session cycle u ≡ true → rank_of result u ≡ rank_in priorities.now seats.now u }
{
    let mut ranks = Ranks::new();
    let mut rest = cycle;
    while let Some(s) = rest.pop_first() {
        let rank = rank_at(s, priorities, &seats[s.index()]);
        ranks.set(s, rank);
    }
    ranks
}

/// The rank of the session with this seat.
fn rank_at(s: Session, priorities: &Priorities, seat: &Seat) -> Rank
    ensures priority { result.priority ≡ priority_of priorities.now s }
    ensures cost { result.cost ≡ cost_at (Some seat.now) }
{
    Rank {
        priority: priorities.of(s),
        cost: cost_of(seat),
    }
}

/// How many keys the seat's transaction holds to be written.
fn cost_of(seat: &Seat) -> u64
    ensures { result ≡ cost_at (Some seat.now) }
{
    match &seat.running {
        None => 0,
        Some(running) => running.cost,
    }
}

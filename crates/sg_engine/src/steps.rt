ghost use Rattle.std.specs.Prelude.{◌≡◌, ◌≢◌, ◌↔◌, [], true, false, None, Some, IfOk, IfSome, IsSome, OnErr};
ghost use Rattle.sg_trace.specs.Legal.{Takes, Puts, Replies};
ghost use Rattle.sg_engine.specs.declared.steps.Step.TheVariants as step;
ghost use Rattle.sg_engine.specs.Shown.{is_open_in, job_in};
ghost use Rattle.sg_engine.specs.Inside.{job_of};
ghost use Rattle.sg_engine.specs.Nexts.{IsNextAct, WaitsForNone, HasReadAll};
ghost use Rattle.sg_engine.specs.Steps.{OpenReads, HasAllMet, Stands};
ghost use Rattle.sg_engine.specs.Wishes.{IsWish, AreInTheWay};
ghost use Rattle.sg_engine.specs.Outside.{outside};
ghost use Rattle.sg_engine.specs.Preparing.{HasNoneLeft};
ghost use Rattle.sg_engine.specs.Stepping.{HasStepped, IsStanding, Repeats, IsLeftToRefine, GivesJob};

use crate::preparing::Prepared;
use crate::shared::{Seat, Shared, Work};
use sg_cells::Key;
use sg_modes::{Mode, Session, Sessions};
use sg_plain::Answer;
use sg_refine::RefineJob;
use sg_shape::CellJudge;
use sg_writes::Act;
use std::alloc::AllocError;

/// What one step of a session did.
#[derive(Debug, Drop)]
pub enum Step {
    /// It took a lock on a key that is present.
    Took(Key, Mode),
    /// It put a key that wasn't present, and locked it.
    Put(Key, Mode),
    /// It waits for other sessions.
    Waiting {
        /// The key that it asks for, or below which it is to put one.
        key: Key,
        /// The mode in which it asks for it.
        mode: Mode,
        /// The sessions that hold it in a mode that doesn't go with that one.
        blockers: Sessions,
    },
    /// The job is to be refined first, and its result delivered.
    Job(RefineJob),
    /// Its open statement was answered.
    Answered,
    /// It was to wait, and its transaction was rolled back to break a cycle of waits.
    Victim {
        /// The sessions of the cycle.
        cycle: Sessions,
    },
    /// It has no statement open.
    Idle,
}

impl Shared {
    /// One step of the session's open statement: Idle where there is none. A wait that stands is repeated.
    /// `AllocError` is want of memory, which comes neither there nor there; nothing that is shown outside has changed
    /// then.
    pub(crate) fn step<C: CellJudge>(&mut self, judge: &C, s: Session) -> Result<Step, AllocError>
        ensures idle { IfOk result (λ it. (it ≡ step.Idle) ↔ (is_open_in self.old s ≡ false)) }
        ensures ok { IfOk result (HasStepped s (outside self.old) (outside self.new)) }
        ensures stands { IsStanding self.old s → IfOk result (Repeats s (outside self.old) (outside self.new)) }
        ensures refines { IsLeftToRefine (outside self.old) s → IfOk result GivesJob }
        ensures err { OnErr result (outside self.new ≡ outside self.old) }
        ensures asking { OnErr result (is_open_in self.old s ≡ true) }
        ensures free { OnErr result (WaitsForNone self.old s) }
    {
        match self.standing(s) {
            Some((key, mode, blockers)) => Ok(Step::Waiting {
                key,
                mode,
                blockers,
            }),
            None => {
                if self.is_open(s) {
                    self.go_on(judge, s)
                } else {
                    Ok(Step::Idle)
                }
            }
        }
    }

    /// The wait of the session that stands: its key, its mode, and for whom it waits.
    fn standing(&self, s: Session) -> Option<(Key, Mode, Sessions)>
        ensures stands { IfSome result (λ w. Stands self.now s w.0 w.1 w.2) }
        ensures open { IsSome result → is_open_in self.now s ≡ true }
        ensures free { result ≡ None → WaitsForNone self.now s }
        ensures some { IsStanding self.now s → IsSome result }
    {
        s.in_range();
        let blockers = self.waits.blockers(s);
        if blockers.is_empty() {
            return None;
        }
        let (key, mode) = wish_at(&self.seats[s.index()]);
        Some((key, mode, blockers))
    }

    /// One step of the open statement of a session that waits for nobody. `AllocError` is want of memory; nothing that
    /// is shown outside has changed then.
    fn go_on<C: CellJudge>(&mut self, judge: &C, s: Session) -> Result<Step, AllocError>
        requires open { is_open_in self.old s ≡ true }
        requires free { WaitsForNone self.old s }
        ensures ok { IfOk result (HasStepped s (outside self.old) (outside self.new)) }
        ensures refines { IsLeftToRefine (outside self.old) s → IfOk result GivesJob }
        ensures busy { IfOk result (λ it. it ≢ step.Idle) }
        ensures err { OnErr result (outside self.new ≡ outside self.old) }
    {
        s.in_range();
        match self.search(judge, s)? {
            Some((key, mode)) => self.lock_or_wait(s, &key, mode),
            None => self.work_on(judge, s),
        }
    }

    /// One step of an open statement that has read what it needs.
    fn work_on<C: CellJudge>(&mut self, judge: &C, s: Session) -> Result<Step, AllocError>
        requires open { is_open_in self.old s ≡ true }
        requires free { WaitsForNone self.old s }
        requires read { HasReadAll self.old s }
        ensures ok { IfOk result (HasStepped s (outside self.old) (outside self.new)) }
        ensures refines { IsLeftToRefine (outside self.old) s → IfOk result GivesJob }
        ensures busy { IfOk result (λ it. it ≢ step.Idle) }
        ensures err { OnErr result (outside self.new ≡ outside self.old) }
    {
        s.in_range();
        if self.has_come_to_writes(s) {
            return self.write(s);
        }
        match self.prepare(judge, s)? {
            Prepared::Answer(answer) => self.reply(s, answer),
            Prepared::Job(job) => Ok(Step::Job(job)),
            Prepared::Writes => self.write(s),
        }
    }

    /// Answers the open statement, which writes nothing.
    fn reply(&mut self, s: Session, answer: Answer) -> Result<Step, AllocError>
        requires next { IsNextAct self.old s (Replies answer) }
        requires reads { OpenReads self.old s }
        ensures ok { IfOk result (HasStepped s self.old self.new) }
        ensures busy { IfOk result (λ it. it ≢ step.Idle) }
        ensures err { OnErr result (self.new ≡ self.old) }
    {
        self.answer(s, answer)?;
        Ok(Step::Answered)
    }

    /// One step of an open statement that has come to its writes.
    fn write(&mut self, s: Session) -> Result<Step, AllocError>
        requires writes { (job_in self.old.jobs s).writes ≡ true }
        requires free { WaitsForNone self.old s }
        requires read { HasReadAll self.old s }
        ensures ok { IfOk result (HasStepped s self.old self.new) }
        ensures busy { IfOk result (λ it. it ≢ step.Idle) }
        ensures err { OnErr result (self.new ≡ self.old) }
    {
        match self.next_act(s) {
            Some(Act::Lock(key, mode)) => self.lock_or_wait(s, &key, mode),
            Some(Act::New { key, next, mode }) => self.put_or_wait(s, &key, &next, mode),
            None => self.write_out(s),
        }
    }

    /// Writes what the open statement changes, of which no need is left, and answers it.
    fn write_out(&mut self, s: Session) -> Result<Step, AllocError>
        requires writes { (job_in self.old.jobs s).writes ≡ true }
        requires met { HasAllMet self.old s }
        ensures ok { IfOk result (HasStepped s self.old self.new) }
        ensures busy { IfOk result (λ it. it ≢ step.Idle) }
        ensures err { OnErr result (self.new ≡ self.old) }
    {
        self.finish(s)?;
        Ok(Step::Answered)
    }

    /// Takes the lock that the open statement asks for next, or waits for those who are in the way.
    fn lock_or_wait(&mut self, s: Session, key: &Key, mode: Mode) -> Result<Step, AllocError>
        requires { IsNextAct self.old s (Takes key.now mode) }
        ensures ok { IfOk result (HasStepped s self.old self.new) }
        ensures busy { IfOk result (λ it. it ≢ step.Idle) }
        ensures err { OnErr result (self.new ≡ self.old) }
    {
        let blockers = self.in_the_way(s, key, mode);
        if !blockers.is_empty() {
            return self.start_to_wait(s, key, mode, &blockers);
        }
        self.take(s, *key, mode)?;
        Ok(Step::Took(*key, mode))
    }

    /// Puts the key that the open statement asks for next, or waits for those who lock the gap in which it belongs.
    fn put_or_wait(
        &mut self,
        s: Session,
        key: &Key,
        next: &Key,
        mode: Mode,
    ) -> Result<Step, AllocError>
        requires { IsNextAct self.old s (Puts key.now next.now mode) }
        ensures ok { IfOk result (HasStepped s self.old self.new) }
        ensures busy { IfOk result (λ it. it ≢ step.Idle) }
        ensures err { OnErr result (self.new ≡ self.old) }
    {
        let blockers = self.in_the_way(s, next, Mode::RangeIN);
        if !blockers.is_empty() {
            return self.start_to_wait(s, next, Mode::RangeIN, &blockers);
        }
        self.put(s, *key, *next, mode)?;
        Ok(Step::Put(*key, mode))
    }

    /// Waits for these, who are in the way.
    fn start_to_wait(
        &mut self,
        s: Session,
        key: &Key,
        mode: Mode,
        blockers: &Sessions,
    ) -> Result<Step, AllocError>
        requires wish { IsWish self.old s key.now mode }
        requires blockers { AreInTheWay self.old s key.now mode blockers.now }
        requires some { blockers.now ≢ [] }
        ensures ok { IfOk result (HasStepped s self.old self.new) }
        ensures busy { IfOk result (λ it. it ≢ step.Idle) }
        ensures err { OnErr result (self.new ≡ self.old) }
    {
        match self.wait(s, *key, mode, *blockers)? {
            None => Ok(Step::Waiting {
                key: *key,
                mode,
                blockers: *blockers,
            }),
            Some(cycle) => Ok(Step::Victim { cycle }),
        }
    }

    /// The other sessions that keep the session from having the key in the mode, for which its open statement asks.
    fn in_the_way(&self, s: Session, key: &Key, mode: Mode) -> Sessions
        requires { IsWish self.now s key.now mode }
        ensures { AreInTheWay self.now s key.now mode result }
    {
        let blockers = self.locks.blockers(s, key, mode);
        blockers.all_sessions();
        blockers
    }

    /// Whether the session's open statement has come to its writes.
    fn has_come_to_writes(&self, s: Session) -> bool
        ensures writes { result ≡ (job_in self.now.jobs s).writes }
        ensures left { result ≡ true → HasNoneLeft self.now s }
    {
        s.in_range();
        is_writing(&self.seats[s.index()])
    }
}

/// The key and the mode of the last wait at the seat. There must have been one.
fn wish_at(seat: &Seat) -> (Key, Mode)
    requires { IsSome seat.now.wish }
    ensures { seat.now.wish ≡ Some result }
{
    match seat.wish {
        None => unreachable!(),
        Some(wish) => wish,
    }
}

/// Whether the statement at the seat has come to its writes.
fn is_writing(seat: &Seat) -> bool
    ensures { result ≡ (job_of seat.now).writes }
{
    match &seat.running {
        None => false,
        Some(running) => match &running.pending {
            None => false,
            Some(pending) => matches!(pending.work, Work::Writes(_)),
        },
    }
}

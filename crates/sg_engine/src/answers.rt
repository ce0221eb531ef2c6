ghost use Rattle.std.specs.Prelude.{◌≡◌, [], ◌∷◌, Some, true, IfSome, IsSome, OnOk, OnErr};
ghost use Rattle.sg_trace.specs.Traces.{Answered};
ghost use Rattle.sg_trace.specs.Legal.{Replies};
ghost use Rattle.sg_engine.specs.Shown.{Appends, job_in};
ghost use Rattle.sg_engine.specs.Inside.{SeatChanges};
ghost use Rattle.sg_engine.specs.Ends.{EndsJob};
ghost use Rattle.sg_engine.specs.Nexts.{IsNextAct};
ghost use Rattle.sg_engine.specs.Steps.{OpenReads, HasAllMet, HasAnswered};
ghost use Rattle.sg_engine.specs.Answers.{HasRoom, IsAnswered, TellsOf, change_of, unwritten};

use crate::shared::{Seat, Shared, Work};
use sg_modes::Session;
use sg_plain::{Answer, KeyList};
use sg_trace::Label;
use sg_writes::Change;
use std::alloc::AllocError;
use std::mem;

impl Shared {
    /// Answers the session's open statement, which writes nothing. `AllocError` is want of memory; nothing has changed
    /// then.
    pub(crate) fn answer(&mut self, s: Session, answer: Answer) -> Result<(), AllocError>
        requires reply { IsNextAct self.old s (Replies answer) }
        requires reads { OpenReads self.old s }
        ensures run { OnOk result (Appends (Answered s answer ∷ []) self.old self.new) }
        ensures job { OnOk result (EndsJob s self.old self.new) }
        ensures err { OnErr result (self.new ≡ self.old) }
    {
        s.in_range();
        let told = answer.copy(self.alloc)?;
        self.trace.reserve(self.live + 1)?;
        keep(&mut self.seats[s.index()], answer);
        self.trace.push_reserved(Label::Answer {
            session: s,
            answer: told,
        });
        Ok(())
    }

    /// Writes what the session's open statement changes, which needs nothing more, and answers it. `AllocError` is want
    /// of memory; nothing has changed then.
    pub(crate) fn finish(&mut self, s: Session) -> Result<(), AllocError>
        requires writes { (job_in self.old.jobs s).writes ≡ true }
        requires met { HasAllMet self.old s }
        ensures ok { OnOk result (HasAnswered s self.old self.new) }
        ensures err { OnErr result (self.new ≡ self.old) }
    {
        s.in_range();
        let selected = selected_at(&self.seats[s.index()]).copy(self.alloc)?;
        self.trace.reserve(self.live + 1)?;
        let seat = &mut self.seats[s.index()];
        let answer = take_change(seat).finish(s, &mut self.rows, &mut self.cells);
        let told = twin(&answer, selected);
        keep(seat, answer);
        self.trace.push_reserved(Label::Answer {
            session: s,
            answer: told,
        });
        Ok(())
    }
}

/// Keeps the open statement at the seat with its answer, in room that is there.
fn keep(seat: &mut Seat, answer: Answer)
    requires { HasRoom seat.old.running }
    ensures { SeatChanges (IsAnswered answer) seat.old seat.new }
{
    match &mut seat.running {
        None => unreachable!(),
        Some(running) => match running.pending.take() {
            None => unreachable!(),
            Some(pending) => {
                running.statements.push_reserved(pending.statement);
                running.answers.push_reserved(answer);
            }
        },
    }
}

/// The keys that the statement at the seat selects, which has come to its writes.
fn selected_at(seat: &Seat) -> &KeyList
    requires { IsSome (change_of seat.now) }
    ensures { IfSome (change_of seat.now) (λ change. result.now ≡ change.selected) }
{
    match &seat.running {
        None => unreachable!(),
        Some(running) => match &running.pending {
            None => unreachable!(),
            Some(pending) => match &pending.work {
                Work::Writes(change) => &change.selected,
                _ => unreachable!(),
            },
        },
    }
}

/// Takes the change from the statement at the seat, which has come to its writes.
fn take_change(seat: &mut Seat) -> Change
    requires { IsSome (change_of seat.old) }
    ensures change { change_of seat.old ≡ Some result }
    ensures seat { seat.new ≡ unwritten seat.old }
{
    match &mut seat.running {
        None => unreachable!(),
        Some(running) => match &mut running.pending {
            None => unreachable!(),
            Some(pending) => match mem::replace(&mut pending.work, Work::Unread) {
                Work::Writes(change) => change,
                _ => unreachable!(),
            },
        },
    }
}

/// An equal answer of a statement that writes, made of the keys that it tells where it tells any. It takes no memory.
fn twin(answer: &Answer, keys: KeyList) -> Answer
    requires { TellsOf keys answer.now }
    ensures { result ≡ answer.now }
{
    match answer {
        Answer::Inserted => Answer::Inserted,
        Answer::Duplicate => Answer::Duplicate,
        Answer::Done => Answer::Done,
        Answer::Missing => Answer::Missing,
        Answer::Deleted(_) => Answer::Deleted(keys),
        _ => unreachable!(),
    }
}

ghost use Rattle.std.specs.Prelude.{◌≡◌, ◌≢◌, ◌≤◌, ◌-◌, ℕ, length, slice_index_or, drop, [], ◌∷◌, IfOk};
ghost use Rattle.sg_modes.specs.Sessions.{IsSession};
ghost use Rattle.sg_run.specs.Ends.{ends, end_by, outcome_by};
ghost use Rattle.sg_run.specs.Courses.{course_in, left, ended, with_ends, outcome_at, HasRoomFor};

use crate::outcomes::{Outcome, Over};
use sg_modes::Session;
use sg_trace::{Cause, Label, Roomy, Trace};
use std::alloc::{AllocError, Global};

/// The transactions of a session that are over, in the script's order, and the script's numbers, from 1, of those of
/// them that were begun.
#[derive(Debug, Drop)]
pub(crate) struct Course {
    pub(crate) over: Roomy<Over>,
    pub(crate) numbers: Roomy<u64>,
}

impl Course {
    /// Nothing is over yet, and there is room for so many transactions. `AllocError` is want of memory.
    pub(crate) fn new(alloc: Global, transactions: usize) -> Result<Course, AllocError>
        ensures over { IfOk result (λ it. it.over.items ≡ []) }
        ensures numbers { IfOk result (λ it. it.numbers.items ≡ []) }
        ensures over_room { IfOk result (λ it. transactions ≤ it.over.spare) }
        ensures number_room { IfOk result (λ it. transactions ≤ it.numbers.spare) }
    {
        let mut over = Roomy::new(alloc);
        let mut numbers = Roomy::new(alloc);
        over.reserve(transactions)?;
        numbers.reserve(transactions)?;
        Ok(Course { over, numbers })
    }

    /// The next transaction was left unbegun.
    pub(crate) fn leave(&mut self)
        requires { 1 ≤ self.old.over.spare }
        ensures { self.new ≡ left self.old }
    {
        self.over.push_reserved(Over {
            outcome: Outcome::NoMemory,
            begun: false,
        });
    }

    /// The next transaction was begun, and ended so.
    pub(crate) fn end(&mut self, outcome: Outcome)
        requires over { 1 ≤ self.old.over.spare }
        requires number { 1 ≤ self.old.numbers.spare }
        ensures { self.new ≡ ended outcome self.old }
    {
        self.over.countable();
        let number = self.over.len() as u64 + 1;
        self.numbers.push_reserved(number);
        self.over.push_reserved(Over {
            outcome,
            begun: true,
        });
    }

    /// How the transaction with this number in the script, from 1, ended: `None` exactly where it isn't over.
    pub(crate) fn outcome(&self, number: u64) -> Option<Outcome>
        ensures { result ≡ outcome_at self.now number }
    {
        if number == 0 {
            return None;
        }
        match self.over.at((number - 1) as usize) {
            None => None,
            Some(over) => Some(over.outcome),
        }
    }

    /// The number in the script of the transaction that was the n-th to begin. It has to be over.
    pub(crate) fn number_of(&self, n: u64) -> u64
        requires least { 1 ≤ n }
        requires most { n ≤ length self.now.numbers.items }
        ensures { result ≡ slice_index_or self.now.numbers.items (n - 1) 0 }
    {
        match self.numbers.at((n - 1) as usize) {
            None => unreachable!(),
            Some(number) => *number,
        }
    }
}

/// Keeps how transactions ended, by the labels of the trace from this place on.
pub(crate) fn note(courses: &mut [Course], trace: &Trace, from: usize)
    requires length { length courses.old ≡ 64 }
    requires place { from ≤ length trace.now.items }
    requires room { (u : ℕ) → IsSession u → HasRoomFor (ends u (drop from trace.now.items)) (course_in courses.old u) }
    ensures { (u : ℕ) → IsSession u → course_in courses.new u ≡ with_ends (ends u (drop from trace.now.items)) (course_in courses.old u) }
{
    note_all(courses, &trace.as_slice()[from..]);
}

/// Keeps how transactions ended, by these labels.
fn note_all(courses: &mut [Course], labels: &[Label])
    requires length { length courses.old ≡ 64 }
    requires room { (u : ℕ) → IsSession u → HasRoomFor (ends u labels.now) (course_in courses.old u) }
    ensures { (u : ℕ) → IsSession u → course_in courses.new u ≡ with_ends (ends u labels.now) (course_in courses.old u) }
{
    for label in labels {
        note_one(courses, label);
    }
}

/// Keeps how a transaction ended, if the label ends one.
fn note_one(courses: &mut [Course], label: &Label)
    requires length { length courses.old ≡ 64 }
    requires room { (u : ℕ) → IsSession u → HasRoomFor (end_by u label.now) (course_in courses.old u) }
    ensures { (u : ℕ) → IsSession u → course_in courses.new u ≡ with_ends (end_by u label.now) (course_in courses.old u) }
{
    match label {
        Label::Commit { session, place } => end_of(
            courses,
            *session,
            Outcome::Committed { place: *place },
        ),
        Label::Victim { session, cycle } => end_of(
            courses,
            *session,
            Outcome::Victim { cycle: *cycle },
        ),
        Label::Rollback { session, cause } => end_of(courses, *session, rolled_back(*cause)),
        Label::Begin { .. }
        | Label::Ask { .. }
        | Label::Take { .. }
        | Label::Put { .. }
        | Label::Wait { .. }
        | Label::Answer { .. } => {}
    }
}

/// How a transaction ended that was rolled back for this cause.
fn rolled_back(cause: Cause) -> Outcome
    ensures { result ≡ outcome_by cause }
{
    match cause {
        Cause::Asked => Outcome::RolledBack,
        Cause::NoMemory => Outcome::NoMemory,
    }
}

/// The session's transaction ended so.
fn end_of(courses: &mut [Course], s: Session, outcome: Outcome)
    requires length { length courses.old ≡ 64 }
    requires room { IsSession s → HasRoomFor (outcome ∷ []) (course_in courses.old s) }
    ensures own { course_in courses.new s ≡ ended outcome (course_in courses.old s) }
    ensures others { (u : ℕ) → IsSession u → u ≢ s → course_in courses.new u ≡ course_in courses.old u }
{
    s.in_range();
    courses[s.index()].end(outcome);
}

ghost use Rattle.std.specs.Prelude.{◌≡◌, ◌↔◌, ◌≤◌, ◌+◌, ℕ, [], true, false, length, Some, None, Err, IfOk, IfSome, IsOk, OnOk, OnErr};
ghost use Rattle.sg_modes.specs.Priorities.{priority_of, ArePriorities};
ghost use Rattle.sg_modes.specs.Sessions.{IsSession};
ghost use Rattle.sg_plain.specs.Transactions.{TransactionPlan};
ghost use Rattle.sg_script.specs.Plans.{session_at};
ghost use Rattle.sg_trace.specs.declared.labels.Cause.TheVariants as cause;
ghost use Rattle.sg_trace.specs.Traces.{Rollback};
ghost use Rattle.sg_engine.specs.Shown.{IsRunOf, is_live_in, is_open_in, job_in, no_job};
ghost use Rattle.sg_engine.specs.Steps.{IsSameRun, SetsJob};
ghost use Rattle.sg_engine.specs.declared.delivery.Stranger.{Stranger};
ghost use Rattle.sg_engine.specs.Strangers.{IsStranger};
ghost use Rattle.sg_run.specs.Courses.{course_in};
ghost use Rattle.sg_run.specs.Runs.{past_in, has_ended, outcome_in, commit_in, priority_in, IsRun};
ghost use Rattle.sg_run.specs.Opens.{HasRoom, transactions_at};
ghost use Rattle.sg_run.specs.Turns.{GoesBy, StaysIn};

use crate::courses::Course;
use crate::outcomes::Outcome;
use sg_engine::{Engine, Stranger};
use sg_modes::{Priorities, Session, Sessions};
use sg_refine::RefineDone;
use sg_script::{Script, SessionScript};
use sg_shape::{CellJudge, Judge};
use sg_trace::Cause;
use std::alloc::{AllocError, Global};
use std::marker::Model;
use std::thread::Threads;

/// A script with an engine that runs it, and what became of its transactions. The trace is legal for the script
/// without those that were left unbegun.
#[derive(Drop)]
pub struct Run<J: Judge + Copy + Send + Sync, C: CellJudge + Copy + Send + Sync> {
    pub(crate) script: Script,
    pub(crate) engine: Engine<J, C>,
    pub(crate) courses: Vec<Course>,
    pub(crate) alloc: Global,
}

impl<J: Judge + Copy + Send + Sync, C: CellJudge + Copy + Send + Sync> Model for Run<J, C> {
    ghost use Rattle.sg_run.specs.Runs.{RunShown};

    ghost Value = { RunShown };

    ghost use Rattle.sg_run.specs.Inside.{run_of, IsInside};

    ghost view = { λ it. run_of it.script it.engine it.courses.items };

    ghost invariant = { λ it. IsInside it.script it.engine it.courses.items };
}

impl<J: Judge + Copy + Send + Sync, C: CellJudge + Copy + Send + Sync> Run<J, C> {
    /// A run in which nothing has happened yet, with room to keep how each transaction of the script will have ended.
    /// `AllocError` is want of memory.
    pub fn open<R: Threads + Sync>(
        rt: &R,
        alloc: Global,
        judge: J,
        cell_judge: C,
        script: Script,
    ) -> Result<Run<J, C>, AllocError>
        ensures script { IfOk result (λ it. it.script ≡ script) }
        ensures run { IfOk result (λ it. IsRunOf [] it.engine) }
        ensures past { IfOk result (λ it. (s : ℕ) → past_in it.past s ≡ []) }
        ensures jobs { IfOk result (λ it. (s : ℕ) → job_in it.engine.jobs s ≡ no_job) }
        ensures legal { IfOk result IsRun }
    {
        let settings = *script.settings();
        let rows = script.rows().copy(alloc)?;
        let priorities = priorities_of(&script);
        let courses = new_courses(alloc, script.sessions())?;
        let engine = Engine::open(rt, alloc, judge, cell_judge, settings, rows, priorities)?;
        Ok(Run {
            script,
            engine,
            courses,
            alloc,
        })
    }

    /// Takes the result of the job that the session waits for. `Stranger` is a result that it doesn't wait for;
    /// nothing has changed then.
    pub fn hand_in(&mut self, s: Session, done: RefineDone) -> Result<(), Stranger>
        ensures ok { IsOk result ↔ ((job_in self.old.engine.jobs s).job ≡ Some done.job) }
        ensures stranger { (why : Stranger) → (result ≡ Err why) ↔ IsStranger (job_in self.old.engine.jobs s).job done.job why }
        ensures run { OnOk result (IsSameRun self.old.engine self.new.engine) }
        ensures job { OnOk result (SetsJob s (record { job = None; delivered = true; writes = false }) self.old.engine self.new.engine) }
        ensures stays { OnOk result (StaysIn self.old self.new) }
        ensures legal { IsRun self.new }
        ensures err { OnErr result (self.new ≡ self.old) }
    {
        self.engine.deliver(s, done)
    }

    /// The job of the session couldn't be refined for want of memory: where a statement is open, its transaction is
    /// rolled back.
    pub fn hand_failed(&mut self, s: Session)
        ensures open { is_open_in self.old.engine s ≡ true → GoesBy s (Rollback s cause.NoMemory) [] self.old self.new }
        ensures none { is_open_in self.old.engine s ≡ false → self.new ≡ self.old }
        ensures legal { IsRun self.new }
    {
        if self.is_open(s) {
            self.roll_back(s, Cause::NoMemory);
        }
    }

    /// Whether the session has no transaction left: that of a session that isn't in the script too.
    pub fn ended(&self, s: Session) -> bool
        ensures { result ≡ has_ended self.now s }
    {
        s.in_range();
        let over = self.courses[s.index()].over.len();
        !self.engine.is_live(s) && self.script.transaction_of(s, over).is_none()
    }

    /// Whether no session has a transaction left.
    pub fn all_ended(&self) -> bool
        ensures all { (result ≡ true) ↔ ((s : ℕ) → IsSession s → has_ended self.now s ≡ true) }
    {
        let mut rest = Sessions::all();
        'sessions: while let Some(s) = rest.pop_first() {
            if !self.ended(s) {
                return false;
            }
        }
        true
    }

    /// How the session's transaction with this number in the script, from 1, ended: `None` exactly where it hasn't, or
    /// isn't there.
    pub fn outcome(&self, s: Session, transaction: u64) -> Option<Outcome>
        ensures { result ≡ outcome_in self.now s transaction }
    {
        s.in_range();
        self.courses[s.index()].outcome(transaction)
    }

    /// Whose the commit at this place is, counted from 1, and the number of its transaction in the script: `None`
    /// exactly where there was no such commit.
    pub fn commit_at(&self, place: u64) -> Option<(Session, u64)>
        ensures commit { result ≡ commit_in self.now place }
        ensures outcome { IfSome result (λ it. outcome_in self.now it.0 it.1 ≡ Some (Outcome.Committed place)) }
    {
        if place == 0 {
            return None;
        }
        let entry = self.engine.journal().at((place - 1) as usize)?;
        let s = entry.session();
        s.in_range();
        let number = self.courses[s.index()].number_of(entry.transaction());
        Some((s, number))
    }

    /// The script, whole.
    pub fn script(&self) -> &Script
        ensures script { result.now ≡ self.now.script }
        ensures legal { IsRun self.now }
    {
        &self.script
    }

    /// The engine.
    pub fn engine(&self) -> &Engine<J, C>
        ensures engine { result.now ≡ self.now.engine }
        ensures legal { IsRun self.now }
    {
        &self.engine
    }

    /// Whether the session has a transaction.
    pub(crate) fn is_live(&self, s: Session) -> bool
        ensures { result ≡ is_live_in self.now.engine s }
    {
        self.engine.is_live(s)
    }

    /// Whether the session has an open statement.
    pub(crate) fn is_open(&self, s: Session) -> bool
        ensures is_open { result ≡ is_open_in self.now.engine s }
        ensures legal { IsRun self.now }
    {
        self.engine.is_open(s)
    }
}

/// The priority of each session, 0 where it isn't in the script.
fn priorities_of(script: &Script) -> Priorities
    ensures each { (s : ℕ) → IsSession s → priority_of result s ≡ priority_in script.now.sessions s }
    ensures all { ArePriorities result }
{
    let mut priorities = Priorities::new();
    let mut rest = Sessions::all();
    while let Some(s) = rest.pop_first() {
        let priority = script.priority_of(s).unwrap_or(0);
        priorities = priorities.with(s, priority);
    }
    priorities
}

/// A course of each session, with room for all of its transactions. `AllocError` is want of memory.
fn new_courses(alloc: Global, sessions: &[SessionScript]) -> Result<Vec<Course>, AllocError>
    ensures length { IfOk result (λ courses. length courses.items ≡ 64) }
    ensures room { IfOk result (λ courses. (s : ℕ) → IsSession s → HasRoom (transactions_at sessions.now s) (course_in courses.items s)) }
{
    let mut courses = Vec::new(alloc);
    for place in 0..64_u8 {
        let transactions = count(sessions, place + 1);
        let course = Course::new(alloc, transactions)?;
        courses.push(course)?;
    }
    Ok(courses)
}

/// How many transactions the session of this number has in the script.
fn count(sessions: &[SessionScript], number: u8) -> usize
    ensures { result ≡ length (transactions_at sessions.now number) }
{
    for found in sessions {
        if found.session.number() == number {
            return found.transactions.len();
        }
    }
    0
}

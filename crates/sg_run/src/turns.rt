ghost use Rattle.std.specs.Prelude.{◌≡◌, ◌≢◌, ◌⊎◌, ◌∷◌, [], ◌++◌, true, false, None, Some, suc, length, IfOk, OnErr};
ghost use Rattle.sg_plain.specs.Sat.{IsSoundStatement};
ghost use Rattle.sg_trace.specs.Traces.{Ask, Commit, Rollback};
ghost use Rattle.sg_engine.specs.Shown.{IsIdle, IsBetween, is_live_in, is_open_in};
ghost use Rattle.sg_engine.specs.Ends.{MayRollBack};
ghost use Rattle.sg_engine.specs.Nexts.{WaitsForNone};
ghost use Rattle.sg_engine.specs.Stepping.{IsLeftToRefine};
ghost use Rattle.sg_run.specs.Runs.{Due, IsRun};
ghost use Rattle.sg_run.specs.Nexts.{IsNextOf, IsGiven, MayGoOn};
ghost use Rattle.sg_run.specs.Turns.{HasTurned, HasGoneOn, IsFree, GoesBy, GivesJobOrRollsBack};

use crate::courses::note;
use crate::runs::Run;
use sg_engine::Step;
use sg_modes::Session;
use sg_plain::{End, Statement, Transaction};
use sg_refine::RefineJob;
use sg_shape::{CellJudge, Judge};
use sg_trace::Cause;
use std::alloc::{AllocError, Global};

/// What a turn of a session came to.
#[derive(Debug, Drop)]
pub enum Turn {
    /// It appended a label, and those of the victims that it brought.
    Labelled,
    /// The session waits for others, and nothing has changed.
    Waits,
    /// The job is to be refined first, and its result handed in.
    Job(RefineJob),
    /// There was no memory to begin the session's next transaction, which is over now.
    Unbegun,
    /// The session has no transaction left.
    Ended,
}

/// What a script has next in a transaction between statements.
#[derive(Drop)]
pub(crate) enum Next {
    /// To ask for this statement.
    Ask(Statement),
    /// To commit.
    Commit,
    /// To roll back.
    RollBack,
}

impl<J: Judge + Copy + Send + Sync, C: CellJudge + Copy + Send + Sync> Run<J, C> {
    /// One turn of the session: it begins its next transaction, asks for the next statement, goes on with the open one
    /// or ends its transaction, as the script says. Where there is no memory to go on, the transaction is rolled back. A
    /// job is given out exactly where the open statement waits for nobody, has read what it needs and has something
    /// left to refine, but for that want of memory.
    pub fn turn(&mut self, s: Session) -> Turn
        ensures turned { HasTurned s self.old self.new result }
        ensures refines { IsLeftToRefine self.old.engine s → GivesJobOrRollsBack s self.old self.new result }
        ensures legal { IsRun self.new }
    {
        if !self.is_live(s) {
            self.begin(s)
        } else if self.is_open(s) {
            self.step(s)
        } else {
            self.go_on(s);
            Turn::Labelled
        }
    }

    /// Begins the session's next transaction, if there is one.
    fn begin(&mut self, s: Session) -> Turn
        requires { is_live_in self.old.engine s ≡ false }
        ensures turned { HasTurned s self.old self.new result }
        ensures legal { IsRun self.new }
    {
        s.in_range();
        let from = self.engine.trace().len();
        let at = s.index();
        let over = self.courses[at].over.len();
        let Some(_next) = self.script.transaction_of(s, over) else {
            return Turn::Ended;
        };
        let Ok(()) = self.engine.begin(s) else {
            self.courses[at].leave();
            return Turn::Unbegun;
        };
        note(&mut self.courses, self.engine.trace(), from);
        Turn::Labelled
    }

    /// Goes on with the session's open statement.
    fn step(&mut self, s: Session) -> Turn
        requires { is_open_in self.old.engine s ≡ true }
        ensures turned { HasTurned s self.old self.new result }
        ensures refines { IsLeftToRefine self.old.engine s → GivesJobOrRollsBack s self.old self.new result }
        ensures legal { IsRun self.new }
    {
        s.in_range();
        let from = self.engine.trace().len();
        let Ok(step) = self.engine.step(s) else {
            self.roll_back(s, Cause::NoMemory);
            return Turn::Labelled;
        };
        if let Some(job) = given(step) {
            return Turn::Job(job);
        }
        if self.engine.trace().len() == from {
            return Turn::Waits;
        }
        note(&mut self.courses, self.engine.trace(), from);
        Turn::Labelled
    }

    /// Asks for the next statement of the session's transaction, or ends it.
    fn go_on(&mut self, s: Session)
        requires { IsBetween self.old.engine s }
        ensures free { IsFree self.old s }
        ensures gone { HasGoneOn s self.old self.new }
        ensures legal { IsRun self.new }
    {
        match self.next_of(s) {
            Err(AllocError) => self.roll_back(s, Cause::NoMemory),
            Ok(Next::Ask(statement)) => self.ask(s, statement),
            Ok(Next::Commit) => self.commit(s),
            Ok(Next::RollBack) => self.roll_back(s, Cause::Asked),
        }
    }

    /// What the script has next for the session, which is between statements. `AllocError` is want of memory.
    fn next_of(&self, s: Session) -> Result<Next, AllocError>
        requires { IsBetween self.now.engine s }
        ensures free { IsFree self.now s }
        ensures next { IfOk result (MayGoOn self.now s) }
    {
        s.in_range();
        let over = self.courses[s.index()].over.len();
        let answered = self.engine.answers(s).len();
        match self.script.transaction_of(s, over) {
            None => unreachable!(),
            Some(transaction) => next_in(self.alloc, transaction, answered),
        }
    }

    /// Asks for the statement; without memory for it the transaction is rolled back.
    fn ask(&mut self, s: Session, statement: Statement)
        requires between { IsBetween self.old.engine s }
        requires next { MayGoOn self.old s (Next.Ask statement) }
        ensures gone { HasGoneOn s self.old self.new }
        ensures legal { IsRun self.new }
    {
        let from = self.engine.trace().len();
        match self.engine.ask(s, statement) {
            Ok(()) => note(&mut self.courses, self.engine.trace(), from),
            Err(_) => self.roll_back(s, Cause::NoMemory),
        }
    }

    /// Commits the session's transaction.
    fn commit(&mut self, s: Session)
        requires between { IsBetween self.old.engine s }
        requires next { MayGoOn self.old s Next.Commit }
        ensures gone { HasGoneOn s self.old self.new }
        ensures legal { IsRun self.new }
    {
        let from = self.engine.trace().len();
        let _place = self.engine.commit(s);
        note(&mut self.courses, self.engine.trace(), from);
    }

    /// Rolls the session's transaction back.
    pub(crate) fn roll_back(&mut self, s: Session, cause: Cause)
        requires may { MayRollBack self.old.engine s cause }
        requires due { Due self.old (Rollback s cause) }
        ensures goes { GoesBy s (Rollback s cause) [] self.old self.new }
        ensures legal { IsRun self.new }
    {
        let from = self.engine.trace().len();
        self.engine.rollback(s, cause);
        note(&mut self.courses, self.engine.trace(), from);
    }
}

/// What comes next in a transaction in which so many statements were answered. `AllocError` is want of memory.
fn next_in(alloc: Global, transaction: &Transaction, answered: usize) -> Result<Next, AllocError>
    ensures { IfOk result (IsNextOf transaction.now answered) }
{
    transaction.all_sound();
    match transaction.at(answered) {
        Some(statement) => Ok(Next::Ask(statement.copy(alloc)?)),
        None => match transaction.end() {
            End::Commit => Ok(Next::Commit),
            End::Rollback => Ok(Next::RollBack),
        },
    }
}

/// The job that a step gave out, if it did.
fn given(step: Step) -> Option<RefineJob>
    ensures { IsGiven step result }
{
    match step {
        Step::Job(job) => Some(job),
        Step::Took(..)
        | Step::Put(..)
        | Step::Waiting { .. }
        | Step::Answered
        | Step::Victim { .. }
        | Step::Idle => None,
    }
}

ghost use Rattle.std.specs.Prelude.{◌≡◌, ◌↔◌, ◌≤◌, ℕ, [], ◌∷◌, ◌++◌, suc, length, true, false, None, Some, Err, OnOk, OnErr, IfOk, IfErr, IsOk};
ghost use Rattle.sg_plain.specs.Sat.{IsSoundStatement};
ghost use Rattle.sg_rows.specs.Table.{committed_rows};
ghost use Rattle.sg_trace.specs.Legal.{IsStage};
ghost use Rattle.sg_trace.specs.Replies.{SerialIn};
ghost use Rattle.sg_trace.specs.Traces.{Begin, Ask, Commit, Rollback};
ghost use Rattle.sg_engine.specs.declared.steps.Step.TheVariants as step;
ghost use Rattle.sg_engine.specs.Journals.{IsSerialJournal, IsLegalRun};
ghost use Rattle.sg_engine.specs.Nexts.{WaitsForNone};
ghost use Rattle.sg_engine.specs.Stepping.{HasStepped, IsStanding, Repeats, IsLeftToRefine, GivesJob};
ghost use Rattle.sg_engine.specs.Ends.{MayRollBack, EndsJob, entry_in};
ghost use Rattle.sg_engine.specs.Steps.{IsSameRun, SetsJob};
ghost use Rattle.sg_engine.specs.Strangers.{IsStranger};
ghost use Rattle.sg_engine.specs.Shown.{seat_in, IsIdle, IsBetween, Appends, next_statement, is_live_in, is_open_in, AreAnswers, IsRunOf, job_in, no_job};

use crate::delivery::Stranger;
use crate::shared::{AskBack, Shared};
use crate::steps::Step;
use sg_cells::Settings;
use sg_modes::{Priorities, Session};
use sg_plain::{PlainRows, Statement};
use sg_refine::RefineDone;
use sg_rows::Rows;
use sg_shape::{CellJudge, Judge};
use sg_trace::{Cause, Journal, KeptAnswers, Trace};
use std::alloc::{AllocError, Global};
use std::marker::Model;
use std::thread::Threads;

/// The locking engine.
#[derive(Drop)]
pub struct Engine<J: Judge + Copy + Send + Sync, C: CellJudge + Copy + Send + Sync> {
    shared: Shared,
    judge: J,
    cell_judge: C,
}

impl<J: Judge + Copy + Send + Sync, C: CellJudge + Copy + Send + Sync> Model for Engine<J, C> {
    ghost use Rattle.sg_engine.specs.Shown.{Shown};
    ghost use Rattle.sg_engine.specs.Outside.{outside};

    ghost Value = { Shown };

    ghost view = { λ e. outside e.shared };
}

impl<J: Judge + Copy + Send + Sync, C: CellJudge + Copy + Send + Sync> Engine<J, C> {
    /// An engine over a table of these rows, all of them committed, in which no session has a transaction. The window
    /// is 1 to 8192. `AllocError` is want of memory.
    pub fn open<R: Threads + Sync>(
        rt: &R,
        alloc: Global,
        judge: J,
        cell_judge: C,
        settings: Settings,
        rows: PlainRows,
        priorities: Priorities,
    ) -> Result<Engine<J, C>, AllocError>
        requires least { 1 ≤ settings.window }
        requires most { settings.window ≤ 8192 }
        ensures stage { IfOk result (λ it. it.stage ≡ record { settings = settings; opening = rows; priorities = priorities }) }
        ensures run { IfOk result (IsRunOf []) }
        ensures jobs { IfOk result (λ it. (s : ℕ) → job_in it.jobs s ≡ no_job) }
        ensures staged { IfOk result (λ it. IsStage it.stage) }
    {
        let shared = Shared::open(rt, alloc, &cell_judge, settings, rows, priorities)?;
        Ok(Engine {
            shared,
            judge,
            cell_judge,
        })
    }

    /// Begins a transaction of a session that has none, and makes the room to end it. `AllocError` is want of
    /// memory; nothing has changed then.
    pub fn begin(&mut self, s: Session) -> Result<(), AllocError>
        requires { IsIdle self.old s }
        ensures ok { OnOk result (Appends (Begin s (suc (seat_in self.old.seats s).begun) ∷ []) self.old self.new) }
        ensures jobs { self.new.jobs ≡ self.old.jobs }
        ensures err { OnErr result (self.new ≡ self.old) }
    {
        self.shared.begin(s)
    }

    /// Asks for a sound statement in the session's transaction, in which none may be open. `AskBack` is want of
    /// memory; nothing has changed then.
    pub fn ask(&mut self, s: Session, statement: Statement) -> Result<(), AskBack>
        requires between { IsBetween self.old s }
        requires sound { IsSoundStatement statement }
        ensures ok { OnOk result (Appends (Ask s (next_statement self.old s) statement ∷ []) self.old self.new) }
        ensures jobs { self.new.jobs ≡ self.old.jobs }
        ensures err { OnErr result (self.new ≡ self.old) }
        ensures back { IfErr result (λ back. back.statement ≡ statement) }
    {
        self.shared.ask(s, statement)
    }

    /// Takes the result of the job that the session waits for. `Stranger` says why it isn't the result of that job, and
    /// nothing has changed then, so that the right one can still be taken. It takes no memory.
    pub fn deliver(&mut self, s: Session, done: RefineDone) -> Result<(), Stranger>
        ensures ok { IsOk result ↔ (job_in self.old.jobs s).job ≡ Some done.job }
        ensures stranger { (why : Stranger) → (result ≡ Err why) ↔ IsStranger (job_in self.old.jobs s).job done.job why }
        ensures run { OnOk result (IsSameRun self.old self.new) }
        ensures job { OnOk result (SetsJob s (record { job = None; delivered = true; writes = false }) self.old self.new) }
        ensures err { OnErr result (self.new ≡ self.old) }
    {
        s.in_range();
        self.shared.deliver(s, done)
    }

    /// One step of the session's open statement; `Idle` where there is none. A wait that stands is repeated. A job is
    /// given exactly where no wait stands, the statement has read what it needs and something is left to refine.
    /// `AllocError` is want of memory, which comes neither where none is open nor where a wait stands; nothing has
    /// changed then.
    pub fn step(&mut self, s: Session) -> Result<Step, AllocError>
        ensures idle { IfOk result (λ it. (it ≡ step.Idle) ↔ (is_open_in self.old s ≡ false)) }
        ensures ok { IfOk result (HasStepped s self.old self.new) }
        ensures stands { IsStanding self.old s → IfOk result (Repeats s self.old self.new) }
        ensures refines { IsLeftToRefine self.old s → IfOk result GivesJob }
        ensures err { OnErr result (self.new ≡ self.old) }
        ensures asking { OnErr result (is_open_in self.old s ≡ true) }
        ensures free { OnErr result (WaitsForNone self.old s) }
    {
        self.shared.step(&self.cell_judge, s)
    }

    /// Commits the session's transaction, in which no statement may be open, and gives its place among all commits,
    /// from 1. Its changes are kept, and its locks given back. It takes no memory.
    pub fn commit(&mut self, s: Session) -> u64
        requires { IsBetween self.old s }
        ensures place { result ≡ suc (length self.old.journal) }
        ensures run { Appends (Commit s (suc (length self.old.journal)) ∷ []) self.old self.new }
        ensures entry { self.new.journal ≡ self.old.journal ++ entry_in s (seat_in self.old.seats s) ∷ [] }
        ensures job { EndsJob s self.old self.new }
    {
        s.in_range();
        self.shared.commit(s)
    }

    /// Rolls the session's transaction back: as its session asks, with no statement open, or for want of memory. Its
    /// changes are undone, and its locks given back. It takes no memory.
    pub fn rollback(&mut self, s: Session, cause: Cause)
        requires { MayRollBack self.old s cause }
        ensures run { Appends (Rollback s cause ∷ []) self.old self.new }
        ensures job { EndsJob s self.old self.new }
    {
        s.in_range();
        self.shared.rollback(s, cause);
    }

    /// Whether the session has a transaction.
    pub fn is_live(&self, s: Session) -> bool
        ensures { result ≡ is_live_in self.now s }
    {
        self.shared.is_live(s)
    }

    /// Whether the session has an open statement.
    pub fn is_open(&self, s: Session) -> bool
        ensures { result ≡ is_open_in self.now s }
    {
        self.shared.is_open(s)
    }

    /// The answers of the session's live transaction so far. There must be one.
    pub fn answers(&self, s: Session) -> &KeptAnswers
        requires { is_live_in self.now s ≡ true }
        ensures { AreAnswers result.now.items (seat_in self.now.seats s).running }
    {
        self.shared.answers(s)
    }

    /// The transactions that committed, in the order of their commits.
    pub fn journal(&self) -> &Journal
        ensures { result.now.items ≡ self.now.journal }
    {
        &self.shared.journal
    }

    /// That the journal's transactions are sound and, executed one after another on plain rows, give their answers, for
    /// a proof that rests on it. It does nothing.
    #[inline(always)]
    pub fn serial_journal(&self)
        ensures { IsSerialJournal self.now }
    {
        self.shared.serial_journal();
    }

    /// That some legal trace, in which no cycle of waits stands, leaves what the engine shows, for a proof that rests on
    /// it. It does nothing.
    #[inline(always)]
    pub fn legal_run(&self)
        ensures { IsLegalRun self.now }
    {
        self.shared.legal_run();
    }

    /// The labels of all calls, in order.
    pub fn trace(&self) -> &Trace
        ensures { result.now.items ≡ self.now.labels }
    {
        &self.shared.trace
    }

    /// The rows, which are those that the journal's transactions leave, one after another; and what live ones have
    /// left of them so far.
    pub fn rows(&self) -> &Rows
        ensures { SerialIn self.now.stage.settings self.now.stage.opening self.now.journal (committed_rows result.now.rows) }
    {
        self.shared.rows()
    }

    /// A copy of the judge, for refinement beside the engine.
    pub fn judge(&self) -> J {
        self.judge
    }
}

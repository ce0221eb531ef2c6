ghost use Rattle.std.specs.Prelude.{◌≡◌, ◌+◌, ◌<◌, ◌≤◌, ◌^◌, [], ◌∷◌, suc, true, is_some, OnOk, OnErr, IfOk, IfErr};
ghost use Rattle.sg_plain.specs.Sat.{IsSoundStatement};
ghost use Rattle.sg_rows.specs.Table.{committed_rows};
ghost use Rattle.sg_trace.specs.Replies.{SerialIn};
ghost use Rattle.sg_trace.specs.Traces.{Begin, Ask};
ghost use Rattle.sg_engine.specs.Journals.{IsSerialJournal, IsLegalRun};
ghost use Rattle.sg_engine.specs.Shown.{seat_in, IsIdle, IsBetween, HasNoneOpen, Appends, next_statement, length_in, is_live_in, is_open_in, open_of, AreAnswers};
ghost use Rattle.sg_engine.specs.Inside.{seat_of, started, SeatChanges, IsSame, IsOpened};

use sg_cellrows::CellRows;
use sg_cells::{Key, Settings};
use sg_locks::Locks;
use sg_modes::{Mode, Priorities, Session};
use sg_plain::{PlainRows, Statement};
use sg_refine::{RefineDone, RefineJob};
use sg_rows::Rows;
use sg_scan::{Found, Scan};
use sg_trace::{Journal, KeptAnswers, KeptStatements, Label, Roomy, Trace};
use sg_waits::Waits;
use sg_writes::Change;
use std::alloc::{AllocError, Global};
use std::marker::Model;

/// How far the session has come with its open statement.
#[derive(Drop)]
pub(crate) enum Work {
    /// Nothing was found yet.
    Unread,
    /// The rows were found, and the result of the job is waited for.
    Awaits { found: Found, job: RefineJob },
    /// The rows were found, and the result of their job was delivered.
    Refined { found: Found, done: RefineDone },
    /// It has read what it has to, and writes.
    Writes(Change),
}

/// A statement that was asked for and isn't answered.
#[derive(Drop)]
pub(crate) struct Pending {
    pub(crate) statement: Statement,
    /// What it reads, once it has begun to.
    pub(crate) scan: Option<Scan>,
    pub(crate) work: Work,
    /// Once it writes, whether the result of its job was delivered.
    pub(crate) delivered: bool,
}

/// A live transaction: its answered statements with room for the open one, their answers likewise, and how many
/// keys it holds to be written.
#[derive(Drop)]
pub(crate) struct Running {
    pub(crate) statements: KeptStatements,
    pub(crate) answers: KeptAnswers,
    pub(crate) pending: Option<Pending>,
    pub(crate) cost: u64,
}

/// A session: how many transactions it began, the key and the mode of its last wait, and its live transaction.
#[derive(Drop)]
pub(crate) struct Seat {
    pub(crate) begun: u64,
    pub(crate) wish: Option<(Key, Mode)>,
    pub(crate) running: Option<Running>,
}

/// What the sessions share: the stores, who holds what and waits for whom, the trace and the journal; and the seat
/// of each.
#[derive(Drop)]
pub(crate) struct Shared {
    pub(crate) settings: Settings,
    pub(crate) opening: PlainRows,
    pub(crate) priorities: Priorities,
    pub(crate) rows: Rows,
    pub(crate) cells: CellRows,
    pub(crate) locks: Locks<Key>,
    pub(crate) waits: Waits,
    pub(crate) trace: Trace,
    pub(crate) journal: Journal,
    pub(crate) seats: Vec<Seat>,
    pub(crate) live: usize,
    pub(crate) alloc: Global,
}

impl Model for Shared {
    ghost use Rattle.sg_engine.specs.Shown.{Shown};
    ghost use Rattle.sg_engine.specs.Ties.{IsEngine};
    ghost use Rattle.sg_engine.specs.Inside.{shown_of};

    ghost Value = { Shown };

    ghost view = { λ e. shown_of e.settings e.opening e.priorities e.trace.items e.journal.items e.seats.items };

    ghost invariant = { λ e. IsEngine (shown_of e.settings e.opening e.priorities e.trace.items e.journal.items e.seats.items) e.rows.rows e.cells.rows e.locks.grants e.waits e.seats.items e.live e.trace.spare e.journal.spare };
}

/// A statement that found no memory, as it was passed.
#[derive(Drop)]
pub struct AskBack {
    /// The statement.
    pub statement: Statement,
}

impl Shared {
    /// Begins a transaction of a session that has none, and makes the room to end it. `AllocError` is want of
    /// memory; nothing has changed then.
    pub(crate) fn begin(&mut self, s: Session) -> Result<(), AllocError>
        requires { IsIdle self.old s }
        ensures ok { OnOk result (Appends (Begin s (suc (seat_in self.old.seats s).begun) ∷ []) self.old self.new) }
        ensures jobs { self.new.jobs ≡ self.old.jobs }
        ensures err { OnErr result (self.new ≡ self.old) }
    {
        s.in_range();
        self.trace.reserve(self.live + 2)?;
        self.journal.reserve(self.live + 1)?;
        self.trace.countable();
        let alloc = self.alloc;
        let seat = &mut self.seats[s.index()];
        let transaction = start(seat, alloc);
        self.trace.push_reserved(Label::Begin {
            session: s,
            transaction,
        });
        self.live += 1;
        Ok(())
    }

    /// Asks for a sound statement in the session's transaction, in which none may be open. `AskBack` is want of
    /// memory; nothing has changed then.
    pub(crate) fn ask(&mut self, s: Session, statement: Statement) -> Result<(), AskBack>
        requires between { IsBetween self.old s }
        requires sound { IsSoundStatement statement }
        ensures ok { OnOk result (Appends (Ask s (next_statement self.old s) statement ∷ []) self.old self.new) }
        ensures jobs { self.new.jobs ≡ self.old.jobs }
        ensures err { OnErr result (self.new ≡ self.old) }
        ensures back { IfErr result (λ back. back.statement ≡ statement) }
    {
        s.in_range();
        match self.trace.reserve(self.live + 1) {
            Err(_) => return Err(AskBack { statement }),
            Ok(()) => {}
        }
        self.trace.countable();
        let seat = &mut self.seats[s.index()];
        let number = open_one(seat, statement)?;
        self.trace.push_reserved(Label::Ask {
            session: s,
            statement: number,
        });
        Ok(())
    }
}

impl Shared {
    /// Whether the session has a transaction.
    pub(crate) fn is_live(&self, s: Session) -> bool
        ensures { result ≡ is_live_in self.now s }
    {
        s.in_range();
        is_running(&self.seats[s.index()])
    }

    /// Whether the session has an open statement.
    pub(crate) fn is_open(&self, s: Session) -> bool
        ensures { result ≡ is_open_in self.now s }
    {
        s.in_range();
        has_open(&self.seats[s.index()])
    }

    /// The answers of the session's live transaction so far. There must be one.
    pub(crate) fn answers(&self, s: Session) -> &KeptAnswers
        requires { is_live_in self.now s ≡ true }
        ensures { AreAnswers result.now.items (seat_in self.now.seats s).running }
    {
        s.in_range();
        answers_of(&self.seats[s.index()])
    }
}

impl Shared {
    /// The rows, which are those that the journal's transactions leave, one after another; and what live ones have
    /// left of them so far.
    pub(crate) fn rows(&self) -> &Rows
        ensures { SerialIn self.now.stage.settings self.now.stage.opening self.now.journal (committed_rows result.now.rows) }
    {
        self.rows.in_order();
        &self.rows
    }

    /// That the journal's transactions are sound and serial, for a proof that rests on it. It does nothing.
    #[inline(always)]
    pub(crate) fn serial_journal(&self)
        ensures { IsSerialJournal self.now }
    {
        let _journal = &self.journal;
    }

    /// That some legal run led here, for a proof that rests on it. It does nothing.
    #[inline(always)]
    pub(crate) fn legal_run(&self)
        ensures { IsLegalRun self.now }
    {
        let _trace = &self.trace;
    }
}

/// Whether the seat has a transaction.
fn is_running(seat: &Seat) -> bool
    ensures { result ≡ is_some (seat_of seat.now).running }
{
    seat.running.is_some()
}

/// Whether the seat has an open statement.
fn has_open(seat: &Seat) -> bool
    ensures { result ≡ is_some (open_of (seat_of seat.now).running) }
{
    match &seat.running {
        None => false,
        Some(running) => running.pending.is_some(),
    }
}

/// The answers of the seat's transaction.
fn answers_of(seat: &Seat) -> &KeptAnswers
    requires { is_some (seat_of seat.now).running ≡ true }
    ensures { AreAnswers result.now.items (seat_of seat.now).running }
{
    match &seat.running {
        None => unreachable!(),
        Some(running) => &running.answers,
    }
}

/// Starts a transaction at the seat, and gives its number.
fn start(seat: &mut Seat, alloc: Global) -> u64
    requires { seat.old.begun + 1 < 2 ^ 64 }
    ensures number { result ≡ seat.old.begun + 1 }
    ensures seat { seat.new ≡ started seat.old }
{
    seat.begun += 1;
    seat.running = Some(Running {
        statements: Roomy::new(alloc),
        answers: Roomy::new(alloc),
        pending: None,
        cost: 0,
    });
    seat.begun
}

/// Opens a statement at the seat with room to keep it and its answer, and gives its number. `AskBack` is want of
/// memory; no statement is open then.
fn open_one(seat: &mut Seat, statement: Statement) -> Result<u64, AskBack>
    requires running { HasNoneOpen (seat_of seat.old).running }
    requires fits { length_in (λ r. r.answers) (seat_of seat.old).running + 1 < 2 ^ 64 }
    ensures number { IfOk result (λ number. number ≡ length_in (λ r. r.answers) (seat_of seat.old).running + 1) }
    ensures ok { OnOk result (SeatChanges (IsOpened statement) seat.old seat.new) }
    ensures err { OnErr result (SeatChanges IsSame seat.old seat.new) }
    ensures back { IfErr result (λ back. back.statement ≡ statement) }
{
    match &mut seat.running {
        None => unreachable!(),
        Some(running) => match make_room(running) {
            Err(_) => Err(AskBack { statement }),
            Ok(()) => {
                running.pending = Some(Pending {
                    statement,
                    scan: None,
                    work: Work::Unread,
                    delivered: false,
                });
                Ok(running.answers.len() as u64 + 1)
            }
        },
    }
}

/// Makes room to keep one statement more and its answer. `AllocError` is want of memory.
fn make_room(running: &mut Running) -> Result<(), AllocError>
    ensures same { IsSame running.old running.new }
    ensures statement { OnOk result (1 ≤ running.new.statements.spare) }
    ensures answer { OnOk result (1 ≤ running.new.answers.spare) }
{
    running.statements.reserve(1)?;
    running.answers.reserve(1)
}

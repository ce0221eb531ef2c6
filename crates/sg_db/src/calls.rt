ghost use Rattle.std.specs.Prelude.{◌≡◌, true, false, IfOk};
ghost use Rattle.sg_plain.specs.Sat.{IsSoundStatement};
ghost use Rattle.sg_trace.specs.Legal.{IsSettled};
ghost use Rattle.sg_db.specs.Callers.{is_live};
ghost use Rattle.sg_db.specs.Theorem.{HasExecuted, HasLooked, HasLearnt, HasCommitted, HasRolledBack, note_of};

use crate::going::{End, Going};
use crate::locked::{Locked, Naming};
use crate::seats::{Front, Note, Seat};
use sg_history::{Counter, Token};
use sg_modes::{Session, Sessions};
use sg_plain::{Answer, Statement};
use sg_refine::{Gate, RefineJob, refine};
use sg_shape::{CellJudge, Judge};
use std::alloc::{AllocError, Global};
use std::marker::Model;
use std::snapshot::Snapshot;
use std::sync::{Condvar, Mutex, Wait};
use std::thread::Threads;

/// A table that callers share: one engine under a lock, and the number of labels of its history, which all may read.
#[derive(Drop)]
pub struct Db<
    N: Naming,
    J: Judge + Copy + Send + Sync,
    C: CellJudge + Copy + Send + Sync,
    G: Gate + Sync + Drop,
> {
    pub(crate) counter: Counter,
    pub(crate) lock: Mutex<Locked<N, J, C>>,
    pub(crate) ended: Condvar,
    pub(crate) judge: J,
    pub(crate) workers: u32,
    pub(crate) gate: G,
    pub(crate) alloc: Global,
}

impl<
    N: Naming,
    J: Judge + Copy + Send + Sync,
    C: CellJudge + Copy + Send + Sync,
    G: Gate + Sync + Drop,
> Model for Db<N, J, C, G> {
    ghost use Rattle.std.specs.Prelude.{◌≡◌, ◌≤◌};
    ghost use Rattle.atomic_table.specs.Seated.{TableId};

    ghost Value = { TableId };

    ghost view = { λ d. d.counter };

    ghost invariant = { λ d. (d.counter ≡ N.table) × (1 ≤ d.workers) × (d.workers ≤ 64) };
}

/// Why a statement has no answer. The seat isn't live then.
#[derive(Drop)]
pub enum Refused {
    /// Its transaction was rolled back to break a cycle of waits.
    Victim {
        /// The sessions of the cycle.
        cycle: Sessions,
        /// The history as it was seen then.
        front: Front,
    },
    /// There was no memory. The transaction was rolled back, or none was begun.
    OutOfMemory,
}

impl<
    N: Naming,
    J: Judge + Copy + Send + Sync,
    C: CellJudge + Copy + Send + Sync,
    G: Gate + Sync + Drop,
> Db<N, J, C, G> {
    ghost use Rattle.std.specs.Prelude.{IfErr, IfSome, IfNone, OnOk, OnErr};
    ghost use Rattle.sg_history.specs.Staying.{local, IsClosed};
    ghost use Rattle.sg_db.specs.Callers.{IsCaller};
    ghost use Rattle.sg_db.specs.Executions.{IsAsking};
    ghost use Rattle.sg_db.specs.Ends.{Started, RanOut, HasGone, Ended, Ran};
    ghost use Rattle.sg_db.specs.Refusals.{HasRefused};

    /// Executes the statement in the seat's transaction, which is begun where there is none. It refines outside the lock,
    /// and waits where others hold what it needs.
    pub fn execute<R: Threads + Wait + Sync>(
        &self,
        rt: &R,
        seat: &mut Seat,
        statement: Statement,
    ) -> Result<Answer, Refused>
        requires table { seat.old.table ≡ self.now }
        requires sound { IsSoundStatement statement }
        ensures ok { IfOk result (λ a. HasExecuted statement a seat.old seat.new) }
        ensures refused { IfErr result (HasRefused seat.old seat.new) }
        ensures table { seat.new.table ≡ seat.old.table }
        ensures live { OnOk result (is_live seat.new ≡ true) }
        ensures over { OnErr result (is_live seat.new ≡ false) }
    {
        let _counter = &self.counter;
        let s = seat.session;
        let asked = Snapshot::of(&statement);
        match self.run(rt, &mut seat.token, &asked, s, statement) {
            End::Answered(answer) => {
                seat.live = true;
                Ok(answer)
            }
            End::Victim(cycle) => {
                seat.live = false;
                Err(Refused::Victim {
                    cycle,
                    front: Front::of(&seat.token),
                })
            }
            End::NoMemory => {
                seat.live = false;
                Err(Refused::OutOfMemory)
            }
        }
    }

    /// Commits the seat's transaction.
    pub fn commit<R: Wait>(&self, rt: &R, seat: &mut Seat) -> Front
        requires table { seat.old.table ≡ self.now }
        requires live { is_live seat.old ≡ true }
        ensures committed { HasCommitted seat.old seat.new result }
        ensures table { seat.new.table ≡ seat.old.table }
        ensures over { is_live seat.new ≡ false }
    {
        let _counter = &self.counter;
        let s = seat.session;
        let asked = Snapshot::of(&Statement::Get(0));
        self.lock
            .lock(rt)
            .end_by_commit(&self.counter, &mut seat.token, &asked, s);
        self.ended.notify_all();
        seat.live = false;
        Front::of(&seat.token)
    }

    /// Rolls the seat's transaction back.
    pub fn rollback<R: Wait>(&self, rt: &R, seat: &mut Seat) -> Front
        requires table { seat.old.table ≡ self.now }
        requires live { is_live seat.old ≡ true }
        ensures rolled_back { HasRolledBack seat.old seat.new result }
        ensures table { seat.new.table ≡ seat.old.table }
        ensures over { is_live seat.new ≡ false }
    {
        let _counter = &self.counter;
        let s = seat.session;
        let asked = Snapshot::of(&Statement::Get(0));
        self.lock
            .lock(rt)
            .end_by_rollback(&self.counter, &mut seat.token, &asked, s);
        self.ended.notify_all();
        seat.live = false;
        Front::of(&seat.token)
    }

    /// Sees the history as it is. It takes no lock and waits for nobody.
    pub fn look(&self, seat: &mut Seat) -> Front
        requires { seat.old.table ≡ self.now }
        ensures looked { HasLooked seat.old seat.new result }
        ensures table { seat.new.table ≡ seat.old.table }
        ensures live { is_live seat.new ≡ is_live seat.old }
    {
        self.counter.look(&mut seat.token);
        Front::of(&seat.token)
    }

    /// A note of what the seat has seen.
    pub fn tell(&self, seat: &mut Seat) -> Note
        requires { seat.old.table ≡ self.now }
        ensures same { seat.new ≡ seat.old }
        ensures note { result ≡ note_of seat.old }
    {
        Note {
            token: self.counter.note(&mut seat.token),
        }
    }

    /// Sees the history as it is, which begins with all that the note has seen.
    pub fn learn(&self, seat: &mut Seat, note: Note) -> Front
        requires table { seat.old.table ≡ self.now }
        requires note { note.table ≡ self.now }
        ensures learnt { HasLearnt note seat.old seat.new result }
        ensures table { seat.new.table ≡ seat.old.table }
        ensures live { is_live seat.new ≡ is_live seat.old }
    {
        let Note { token } = note;
        self.counter.keep(&mut seat.token, token);
        self.counter.look(&mut seat.token);
        Front::of(&seat.token)
    }

    /// Asks for the statement, and goes on with it until it is answered or its transaction has ended.
    fn run<R: Threads + Wait + Sync>(
        &self,
        rt: &R,
        token: &mut Token,
        asked: &Snapshot<Statement>,
        s: Session,
        statement: Statement,
    ) -> End
        requires table { token.old.table ≡ N.table }
        requires caller { IsCaller s token.old.known }
        requires closed { IsClosed (local token.old.known.stage token.old.known.seen s) }
        requires sound { IsSoundStatement statement }
        requires asked { asked.now.value ≡ statement }
        ensures table { token.new.table ≡ N.table }
        ensures ran { Ran s asked.now.value token.old.known token.new.known result }
    {
        if self.start(rt, token, asked, s, statement).is_err() {
            self.ended.notify_all();
            return End::NoMemory;
        }
        for _ in rt.forever() {
            if let Some(end) = self.go_on(rt, token, asked, s) {
                return end;
            }
        }
        unreachable!()
    }

    /// Asks for the statement under the lock.
    fn start<R: Wait>(
        &self,
        rt: &R,
        token: &mut Token,
        asked: &Snapshot<Statement>,
        s: Session,
        statement: Statement,
    ) -> Result<(), AllocError>
        requires table { token.old.table ≡ N.table }
        requires caller { IsCaller s token.old.known }
        requires closed { IsClosed (local token.old.known.stage token.old.known.seen s) }
        requires sound { IsSoundStatement statement }
        requires asked { asked.now.value ≡ statement }
        ensures table { token.new.table ≡ N.table }
        ensures ok { OnOk result (Started s asked.now.value token.old.known token.new.known) }
        ensures err { OnErr result (RanOut s token.old.known token.new.known) }
    {
        self.lock
            .lock(rt)
            .start(&self.counter, token, asked, s, statement)
    }

    /// One step under the lock; `None` where it goes on. What it gives out is refined outside; where it waits the thread
    /// sleeps until a transaction has ended.
    fn go_on<R: Threads + Wait + Sync>(
        &self,
        rt: &R,
        token: &mut Token,
        asked: &Snapshot<Statement>,
        s: Session,
    ) -> Option<End>
        requires table { token.old.table ≡ N.table }
        requires caller { IsCaller s token.old.known }
        requires asking { IsAsking (local token.old.known.stage token.old.known.seen s) }
        ensures table { token.new.table ≡ N.table }
        ensures none { IfNone result (HasGone s token.old.known token.new.known) }
        ensures some { IfSome result (Ended s token.old.known token.new.known) }
    {
        let mut held = self.lock.lock(rt);
        let going = held.advance(self.alloc, &self.counter, token, asked, s);
        if held.closes() {
            self.ended.notify_all();
        }
        match going {
            Going::On => None,
            Going::Waits => {
                drop(self.ended.wait(rt, held));
                None
            }
            Going::Job(job) => {
                drop(held);
                self.refine_outside(rt, token, asked, s, job)
            }
            Going::Over(end) => Some(end),
        }
    }

    /// Refines a job while the lock is free, and hands in what it came to.
    fn refine_outside<R: Threads + Wait + Sync>(
        &self,
        rt: &R,
        token: &mut Token,
        asked: &Snapshot<Statement>,
        s: Session,
        job: RefineJob,
    ) -> Option<End>
        requires table { token.old.table ≡ N.table }
        requires caller { IsCaller s token.old.known }
        requires asking { IsAsking (local token.old.known.stage token.old.known.seen s) }
        requires settled { IsSettled token.old.known.seen }
        ensures table { token.new.table ≡ N.table }
        ensures none { IfNone result (HasGone s token.old.known token.new.known) }
        ensures some { IfSome result (Ended s token.old.known token.new.known) }
    {
        match refine(rt, self.alloc, &self.judge, self.workers, &self.gate, job) {
            Ok(done) => {
                let _ = self.lock.lock(rt).deliver(s, done);
                None
            }
            Err(_) => {
                let end = self.lock.lock(rt).fail(&self.counter, token, asked, s);
                self.ended.notify_all();
                Some(end)
            }
        }
    }
}

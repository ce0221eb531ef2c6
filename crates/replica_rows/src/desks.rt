//! A table with the publisher of its journal.
ghost use Rattle.std.specs.Prelude.{◌≡◌, ◌≤◌, IfOk, IfSome};
ghost use Rattle.std.specs.List.{AllByRecursion};
ghost use Rattle.logbook.specs.Pages.{Book};
ghost use Rattle.sg_plain.specs.Rows.{Rows};
ghost use Rattle.sg_plain.specs.Sat.{IsSoundStatement};
ghost use Rattle.sg_replica.specs.Starting.{IsFresh};

use crate::stops::Stop;
use crate::tables::{self, Table};
use sg_modes::Session;
use sg_plain::{PlainRows, Statement};
use sg_replica::{Publisher, Replica, Snapshot, Snapshots, Told};
use std::alloc::Global;
use std::marker::Model;
use std::sync::Wait;
use std::thread::Threads;

/// A table with one session, and a publisher of its journal. It isn't dropped: end it by `close`.
pub struct Desk {
    table: Table,
    session: Session,
    publisher: Publisher,
}

impl Model for Desk {
    ghost use Rattle.sg_replica.specs.Values.{PublisherValue};
    ghost use Rattle.replica_rows.specs.Courses.{IsTied};

    ghost Value = { PublisherValue };

    ghost view = { λ it. it.publisher };

    ghost invariant = { λ it. IsTied it.table it.publisher };
}

impl Desk {
    /// A table of these rows, with 1 to 64 readers.
    pub fn open<R: Threads + Wait + Sync>(
        rt: &R,
        alloc: Global,
        rows: PlainRows,
        readers: u8,
    ) -> Result<(Desk, Snapshots), Stop>
        requires some { 1 ≤ readers }
        requires few { readers ≤ 64 }
        ensures { IfOk result (λ it. AllByRecursion (IsFresh it.0.book rows) it.1) }
    {
        let Some(session) = Session::new(1) else {
            return Err(Stop::Unexpected);
        };
        let table = tables::open(rt, alloc, rows)?;
        let Replica {
            publisher,
            snapshots,
        } = Replica::start(rt, alloc, &table, readers)?;
        let desk = Desk {
            table,
            session,
            publisher,
        };
        Ok((desk, snapshots))
    }

    /// Begins a transaction.
    pub fn begin(&mut self) -> Result<(), Stop>
        ensures { self.new ≡ self.old }
    {
        tables::begin(&mut self.table, self.session)
    }

    /// Executes a statement of the transaction.
    pub fn execute<R: Threads + Sync>(
        &mut self,
        rt: &R,
        alloc: Global,
        statement: Statement,
    ) -> Result<(), Stop>
        requires { IsSoundStatement statement }
        ensures { self.new ≡ self.old }
    {
        tables::execute(rt, alloc, &mut self.table, self.session, statement)
    }

    /// Commits the transaction.
    pub fn commit(&mut self) -> Result<(), Stop>
        ensures { self.new ≡ self.old }
    {
        tables::commit(&mut self.table, self.session)
    }

    /// Rolls the transaction back.
    pub fn roll_back(&mut self) -> Result<(), Stop>
        ensures { self.new ≡ self.old }
    {
        tables::roll_back(&mut self.table, self.session)
    }

    /// A transaction of one statement.
    pub fn change<R: Threads + Sync>(
        &mut self,
        rt: &R,
        alloc: Global,
        statement: Statement,
    ) -> Result<(), Stop>
        requires { IsSoundStatement statement }
        ensures { self.new ≡ self.old }
    {
        self.begin()?;
        self.execute(rt, alloc, statement)?;
        self.commit()
    }

    /// Publishes all that was committed, and says how many transactions these are. Where memory was wanting it is
    /// tried once more.
    pub fn catch_up<R: Wait>(&mut self, rt: &R) -> Result<u64, Stop>
        ensures { self.new.book ≡ self.old.book }
    {
        if let Ok(place) = self.publisher.catch_up(rt, &self.table) {
            return Ok(place);
        }
        match self.publisher.catch_up(rt, &self.table) {
            Ok(place) => Ok(place),
            Err(_) => Err(Stop::Memory),
        }
    }

    /// What is published.
    pub fn tell(&self) -> Told
        ensures { result.book ≡ self.now.book }
    {
        self.publisher.tell()
    }

    /// Ends the publisher.
    pub fn close<R: Wait>(self, rt: &R) {
        let Desk {
            table: _,
            session: _,
            publisher,
        } = self;
        publisher.close(rt);
    }
}

/// The next reader of a desk.
pub fn next_reader(snapshots: &mut Snapshots) -> Result<Snapshot, Stop>
    ensures this { (book : Book) (rows : Rows) → AllByRecursion (IsFresh book rows) snapshots.old → IfOk result (λ it. it.book ≡ book) }
    ensures rest { (book : Book) (rows : Rows) → AllByRecursion (IsFresh book rows) snapshots.old → AllByRecursion (IsFresh book rows) snapshots.new }
{
    match snapshots.next() {
        Some(snapshot) => Ok(snapshot),
        None => Err(Stop::Unexpected),
    }
}

//! A copy of the committed rows, as the two between which readers and the publisher change.
ghost use Rattle.std.specs.Prelude.{◌≡◌, [], ◌∷◌, ◌++◌, length, fold, IfOk, IfErr, OnErr, OnOk};
ghost use Rattle.sg_plain.specs.Replies.{PlainReply};
ghost use Rattle.sg_plain.specs.Sat.{IsSoundStatement};
ghost use Rattle.sg_copies.specs.Copied.{left_after, with_entry};
ghost use Rattle.sg_copies.specs.Reads.{IsReading};
ghost use Rattle.sg_copies.specs.Writes.{AreWritesOf};

use crate::changes::Changes;
use crate::stored::StoredRows;
use crate::writes::{Write, write_all};
use left_right::Absorb;
use sg_fronts::Front;
use sg_plain::{Answer, PlainRows, Statement, Test};
use sg_shape::{Judge, Pred};
use std::alloc::{AllocError, Global};
use std::collections::VecDeque;
use std::marker::Model;
use std::snapshot::Snapshot;

/// The rows that a table opened with and the transactions that committed since, in the order of their commits, with
/// the rows that they leave. Of both the rows alone take memory, and the number of the transactions is kept.
#[derive(Drop)]
pub struct TableCopy {
    rows: StoredRows,
    opening: Snapshot<PlainRows>,
    entries: Vec<Snapshot<Changes>>,
    front: Front,
    alloc: Global,
}

impl Model for TableCopy {
    ghost use Rattle.std.specs.Prelude.{◌≡◌, map};
    ghost use Rattle.sg_copies.specs.Copied.{Copied, left_after};

    ghost Value = { Copied };

    ghost use Rattle.sg_copies.specs.Entries.{entries_in};

    ghost view = { λ it. record { opening = it.opening.value; entries = entries_in it.entries.items; front = it.front } };

    ghost invariant = { λ it. it.rows.pairs ≡ left_after (entries_in it.entries.items) it.opening.value };
}

impl TableCopy {
    /// Two copies of the rows that a table opened with, which share their shapes. `AllocError` is want of memory.
    pub fn two(
        alloc: Global,
        rows: &PlainRows,
        front: &Front,
    ) -> Result<(TableCopy, TableCopy), AllocError>
        ensures first { IfOk result (λ two. two.0 ≡ record { opening = rows.now; entries = []; front = front.now }) }
        ensures second { IfOk result (λ two. two.1 ≡ record { opening = rows.now; entries = []; front = front.now }) }
    {
        let (one, other) = StoredRows::load_two(alloc, rows)?;
        let first = TableCopy::over(alloc, one, rows, front);
        let second = TableCopy::over(alloc, other, rows, front);
        Ok((first, second))
    }

    /// A copy with these rows stored.
    fn over(alloc: Global, stored: StoredRows, rows: &PlainRows, front: &Front) -> TableCopy
        requires { stored.pairs ≡ rows.now }
        ensures { result ≡ record { opening = rows.now; entries = []; front = front.now } }
    {
        TableCopy {
            rows: stored,
            opening: Snapshot::of(rows),
            entries: Vec::new(alloc),
            front: front.again(),
            alloc,
        }
    }

    /// Answers a statement that reads, on the rows as they are. `AllocError` is want of memory.
    pub fn answer<J: Judge>(
        &self,
        alloc: Global,
        judge: &J,
        statement: &Statement,
    ) -> Result<Answer, AllocError>
        requires reads { IsReading statement.now }
        requires sound { IsSoundStatement statement.now }
        ensures { IfOk result (PlainReply (left_after self.now.entries self.now.opening) statement.now) }
    {
        read(alloc, judge, &self.rows, statement)
    }

    /// The journal so far.
    pub fn front(&self) -> &Front
        ensures { result.now ≡ self.now.front }
    {
        &self.front
    }

    /// How many transactions it shows.
    pub fn place(&self) -> u64
        ensures { result ≡ length self.now.entries }
    {
        self.entries.len() as u64
    }

    /// Makes the writes of an entry, and notes it. Without memory for it nothing has changed, and the writes come back.
    fn take_in(
        &mut self,
        writes: VecDeque<Write>,
        noted: Snapshot<Changes>,
        front: &Front,
    ) -> Result<(), VecDeque<Write>>
        requires writes { AreWritesOf noted.value.entry.statements noted.value.entry.answers writes.items }
        requires front { front.now ≡ noted.value.front }
        ensures ok { OnOk result (self.new ≡ with_entry self.old noted.value) }
        ensures err { OnErr result (self.new ≡ self.old) }
        ensures back { IfErr result (λ back. back.items ≡ writes.items) }
    {
        if self.rows.reserve(writes.len()).is_err() || self.entries.reserve(1).is_err() {
            return Err(writes);
        }
        write_all(&mut self.rows, writes);
        self.entries.push_reserved(noted);
        self.front = front.again();
        Ok(())
    }
}

impl Absorb<Changes> for TableCopy {
    type State = TableCopy;

    ghost use Rattle.sg_copies.specs.Copied.{with_entry};

    ghost state = { λ copy. copy };

    ghost applied = { with_entry };

    fn absorb_first(&mut self, operation: &Changes, _other: &TableCopy) -> Result<(), AllocError> {
        let writes = operation.copied_writes(self.alloc)?;
        match self.take_in(writes, Snapshot::of(operation), &operation.front) {
            Ok(()) => Ok(()),
            Err(_) => Err(AllocError),
        }
    }

    fn absorb_second(&mut self, operation: Changes, _other: &TableCopy) -> Result<(), Changes> {
        let noted = Snapshot::of(&operation);
        let Changes {
            writes,
            entry,
            front,
        } = operation;
        match self.take_in(writes, noted, &front) {
            Ok(()) => Ok(()),
            Err(writes) => Err(Changes {
                writes,
                entry,
                front,
            }),
        }
    }
}

fn read<J: Judge>(
    alloc: Global,
    judge: &J,
    rows: &StoredRows,
    statement: &Statement,
) -> Result<Answer, AllocError>
    requires reads { IsReading statement.now }
    requires sound { IsSoundStatement statement.now }
    ensures { IfOk result (PlainReply rows.now.pairs statement.now) }
{
    match statement {
        Statement::Get(key) => match rows.shape_at(*key) {
            Some(shape) => Ok(Answer::Found(shape.get().copy(alloc)?)),
            None => Ok(Answer::Absent),
        },
        Statement::Select(query) => {
            let keys = rows.keys_with(alloc, judge, query.test, &query.shape)?;
            Ok(Answer::Keys(keys))
        }
        Statement::Filter(shape) => {
            let meeting = Test::Relate(Pred::Intersects);
            let keys = rows.keys_with(alloc, judge, meeting, shape)?;
            Ok(Answer::Keys(keys))
        }
        _ => unreachable!(),
    }
}

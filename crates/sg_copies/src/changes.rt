//! What is told to the copies of a committed transaction.
ghost use Rattle.std.specs.Prelude.{◌≡◌, IfOk};
ghost use Rattle.sg_plain.specs.Sat.{AreSound};
ghost use Rattle.sg_copies.specs.Writes.{AreWritesOf};

use crate::writes::{Write, writes_of};
use sg_fronts::Front;
use sg_trace::JournalEntry;
use std::alloc::{AllocError, Global};
use std::collections::VecDeque;
use std::marker::Model;
use std::snapshot::Snapshot;

/// The writes of a committed transaction, in order, and the journal so far. Contracts see it as the journal's entry.
/// What the transaction read takes no room.
#[derive(Drop)]
pub struct Changes {
    pub(crate) writes: VecDeque<Write>,
    pub(crate) entry: Snapshot<JournalEntry>,
    pub(crate) front: Front,
}

impl Model for Changes {
    ghost use Rattle.sg_copies.specs.Copied.{Noted};

    ghost Value = { Noted };

    ghost use Rattle.sg_copies.specs.Writes.{AreWritesOf};

    ghost view = { λ it. record { entry = it.entry.value; front = it.front } };

    ghost invariant = { λ it. AreWritesOf it.entry.value.statements it.entry.value.answers it.writes.items };
}

/// The writes of an entry, in order.
#[derive(Drop)]
pub struct Writes {
    pub(crate) writes: VecDeque<Write>,
}

impl Writes {
    /// Those of an entry, whose statements are sound. `AllocError` is want of memory.
    pub fn of(alloc: Global, entry: &JournalEntry) -> Result<Writes, AllocError>
        requires { AreSound entry.now.statements }
        ensures { IfOk result (λ made. AreWritesOf entry.now.statements entry.now.answers made.writes.items) }
    {
        let answers = entry.answers().as_slice();
        let writes = writes_of(alloc, entry.statements(), answers)?;
        Ok(Writes { writes })
    }
}

impl Changes {
    /// Those of this entry, with which the journal so far ends.
    pub fn new(made: Writes, entry: &JournalEntry, front: Front) -> Changes
        requires { AreWritesOf entry.now.statements entry.now.answers made.writes.items }
        ensures entry { result.entry ≡ entry.now }
        ensures front { result.front ≡ front }
    {
        Changes {
            writes: made.writes,
            entry: Snapshot::of(entry),
            front,
        }
    }

    /// Equal writes, which share their shapes with these. `AllocError` is want of memory.
    pub(crate) fn copied_writes(&self, alloc: Global) -> Result<VecDeque<Write>, AllocError>
        ensures { IfOk result (λ writes. AreWritesOf self.now.entry.statements self.now.entry.answers writes.items) }
    {
        copied(alloc, &self.writes)
    }
}

/// Equal writes, in order.
fn copied(alloc: Global, writes: &VecDeque<Write>) -> Result<VecDeque<Write>, AllocError>
    ensures { IfOk result (λ copies. copies.items ≡ writes.now.items) }
{
    let mut copies = VecDeque::new(alloc);
    for place in 0..writes.len() {
        let copy = writes[place].copy(alloc)?;
        copies.push_back(copy)?;
    }
    Ok(copies)
}

//! What a committed transaction changed, write by write.
ghost use Rattle.std.specs.Prelude.{◌≡◌, ◌+◌, ◌≤◌, fold, length, IfOk, IfSome, OnOk};
ghost use Rattle.std.specs.List.{AllByRecursion};
ghost use Rattle.sg_plain.specs.Replies.{effect};
ghost use Rattle.sg_plain.specs.Rows.{Rows};
ghost use Rattle.sg_plain.specs.Sat.{AreSound, IsSoundStatement};
ghost use Rattle.sg_copies.specs.Writes.{AreWritesOf, IsSoundWrite, Adds, written, written_by};

use crate::shapes::SharedShape;
use crate::stored::StoredRows;
use sg_plain::{Answer, KeyList, Statement};
use std::alloc::{AllocError, Global};
use std::collections::VecDeque;

/// A change of rows.
#[derive(Drop)]
pub(crate) enum Write {
    /// The row with this key has this shape, new or in place of the one there.
    Put(u32, SharedShape),
    /// No row has this key.
    Remove(u32),
    /// No row has one of these keys.
    RemoveAll(KeyList),
}

impl Write {
    /// An equal write, which shares its shape with this one.
    pub fn copy(&self, alloc: Global) -> Result<Write, AllocError>
        ensures { IfOk result (λ write. write ≡ self.now) }
    {
        match self {
            Write::Put(key, shape) => Ok(Write::Put(*key, shape.again()?)),
            Write::Remove(key) => Ok(Write::Remove(*key)),
            Write::RemoveAll(keys) => Ok(Write::RemoveAll(keys.copy(alloc)?)),
        }
    }
}

/// What a statement with this answer has changed: `None` where it changed nothing.
fn write_of(
    alloc: Global,
    statement: &Statement,
    answer: &Answer,
) -> Result<Option<Write>, AllocError>
    requires { IsSoundStatement statement.now }
    ensures leaves { IfOk result (λ write. (rows : Rows) → written_by rows write ≡ effect statement.now answer.now rows) }
    ensures sound { IfOk result (λ write. IfSome write IsSoundWrite) }
{
    match statement {
        Statement::Insert(key, shape) => match answer {
            Answer::Inserted => Ok(Some(Write::Put(*key, SharedShape::of(alloc, shape)?))),
            _ => Ok(None),
        },
        Statement::Update(key, shape) => match answer {
            Answer::Done => Ok(Some(Write::Put(*key, SharedShape::of(alloc, shape)?))),
            _ => Ok(None),
        },
        Statement::Delete(key) => match answer {
            Answer::Done => Ok(Some(Write::Remove(*key))),
            _ => Ok(None),
        },
        Statement::DeleteWhere(_) => match answer {
            Answer::Deleted(keys) => Ok(Some(Write::RemoveAll(keys.copy(alloc)?))),
            _ => Ok(None),
        },
        Statement::Get(_) | Statement::Select(_) | Statement::Filter(_) | Statement::Plan(_) => {
            Ok(None)
        }
    }
}

/// What statements with these answers have changed, in order.
pub(crate) fn writes_of(
    alloc: Global,
    statements: &[Statement],
    answers: &[Answer],
) -> Result<VecDeque<Write>, AllocError>
    requires { AreSound statements.now }
    ensures { IfOk result (λ writes. AreWritesOf statements.now answers.now writes.items) }
{
    let count = statements.len().min(answers.len());
    let mut writes = VecDeque::new(alloc);
    for place in 0..count {
        push_write(alloc, &mut writes, &statements[place], &answers[place])?;
    }
    Ok(writes)
}

/// Puts last what the statement has changed, if anything.
fn push_write(
    alloc: Global,
    writes: &mut VecDeque<Write>,
    statement: &Statement,
    answer: &Answer,
) -> Result<(), AllocError>
    requires { IsSoundStatement statement.now }
    ensures { OnOk result (Adds statement.now answer.now writes.old.items writes.new.items) }
{
    if let Some(write) = write_of(alloc, statement, answer)? {
        writes.push_back(write)?;
    }
    Ok(())
}

/// Makes the writes, in order, in room that is there. It takes no memory.
pub(crate) fn write_all(rows: &mut StoredRows, mut writes: VecDeque<Write>)
    requires room { length writes.items ≤ rows.old.spare }
    requires sound { AllByRecursion IsSoundWrite writes.items }
    ensures { rows.new.pairs ≡ fold written rows.old.pairs writes.items }
{
    while let Some(write) = writes.pop_front() {
        make(rows, write);
    }
}

fn make(rows: &mut StoredRows, write: Write)
    requires room { 1 ≤ rows.old.spare }
    requires sound { IsSoundWrite write }
    ensures rows { rows.new.pairs ≡ written rows.old.pairs write }
    ensures spare { rows.old.spare ≤ rows.new.spare + 1 }
{
    match write {
        Write::Put(key, shape) => rows.put(key, shape),
        Write::Remove(key) => rows.remove(key),
        Write::RemoveAll(keys) => rows.remove_all(&keys),
    }
}

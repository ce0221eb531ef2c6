ghost use Rattle.std.specs.Prelude.{◌≡◌, IfOk};

use crate::keys::KeyList;
use sg_shape::{Items, Pred, Shape};
use std::alloc::{AllocError, Global};

/// What a query asks of a row's shape, which comes first, and its own.
#[derive(Clone, Copy, Debug, PartialEq, Eq)]
pub enum Test {
    /// They are so related.
    Relate(Pred),
    /// Some point of the one and some point of the other are nearer than the bound where it is strict, else no
    /// farther. The bound is 0 to 64,000,000, in units of the coordinates.
    Near { bound: u32, strict: bool },
}

/// A test of rows against a shape.
#[derive(Debug, Drop)]
pub struct Query {
    /// What is asked of each row's shape.
    pub test: Test,
    /// The shape that it is asked against.
    pub shape: Shape,
}

/// What a transaction asks of the table.
#[derive(Debug, Drop)]
pub enum Statement {
    /// Adds a row with this key and shape, where the key isn't held.
    Insert(u32, Shape),
    /// Gives the row with this key this shape.
    Update(u32, Shape),
    /// Removes the row with this key.
    Delete(u32),
    /// Asks for the shape of the row with this key.
    Get(u32),
    /// Asks for the keys of the rows that satisfy the query.
    Select(Query),
    /// Asks for keys of rows, among them all whose shapes have a common point with this one.
    Filter(Shape),
    /// Removes the rows that satisfy the query.
    DeleteWhere(Query),
    /// Asks how a select of the query is searched, and for its keys.
    Plan(Query),
}

/// What a statement answers.
#[derive(Debug, Drop)]
pub enum Answer {
    /// The row was added.
    Inserted,
    /// The key was held already, and nothing changed.
    Duplicate,
    /// The row was updated or deleted.
    Done,
    /// There was no row with the key to update or delete, and nothing changed.
    Missing,
    /// There is no row with the key.
    Absent,
    /// The shape of the row with the key.
    Found(Shape),
    /// The keys that a select or a filter asked for, rising.
    Keys(KeyList),
    /// The keys of the rows that were removed, rising.
    Deleted(KeyList),
    /// How a query was searched. Without an index each row is a candidate, none is sure, and all are refined;
    /// for a shape without points there are no candidates.
    Plan {
        /// How many rows the search considered.
        candidates: u64,
        /// How many of them satisfy the query by the index alone.
        sure: u64,
        /// How many of them were tested by their shapes.
        refined: u64,
        /// The keys of the rows that satisfy the query, rising.
        keys: KeyList,
    },
}

/// Answers, one for each statement.
pub type Answers = Items<Answer>;

impl Query {
    /// An equal query.
    pub fn copy(&self, alloc: Global) -> Result<Query, AllocError>
        ensures { IfOk result (λ query. query ≡ self.now) }
    {
        Ok(Query {
            test: self.test,
            shape: self.shape.copy(alloc)?,
        })
    }
}

impl Statement {
    /// An equal statement.
    pub fn copy(&self, alloc: Global) -> Result<Statement, AllocError>
        ensures { IfOk result (λ statement. statement ≡ self.now) }
    {
        match self {
            Statement::Insert(key, shape) => Ok(Statement::Insert(*key, shape.copy(alloc)?)),
            Statement::Update(key, shape) => Ok(Statement::Update(*key, shape.copy(alloc)?)),
            Statement::Delete(key) => Ok(Statement::Delete(*key)),
            Statement::Get(key) => Ok(Statement::Get(*key)),
            Statement::Select(query) => Ok(Statement::Select(query.copy(alloc)?)),
            Statement::Filter(shape) => Ok(Statement::Filter(shape.copy(alloc)?)),
            Statement::DeleteWhere(query) => Ok(Statement::DeleteWhere(query.copy(alloc)?)),
            Statement::Plan(query) => Ok(Statement::Plan(query.copy(alloc)?)),
        }
    }
}

impl Answer {
    /// An equal answer.
    pub fn copy(&self, alloc: Global) -> Result<Answer, AllocError>
        ensures { IfOk result (λ answer. answer ≡ self.now) }
    {
        match self {
            Answer::Inserted => Ok(Answer::Inserted),
            Answer::Duplicate => Ok(Answer::Duplicate),
            Answer::Done => Ok(Answer::Done),
            Answer::Missing => Ok(Answer::Missing),
            Answer::Absent => Ok(Answer::Absent),
            Answer::Found(shape) => Ok(Answer::Found(shape.copy(alloc)?)),
            Answer::Keys(keys) => Ok(Answer::Keys(keys.copy(alloc)?)),
            Answer::Deleted(keys) => Ok(Answer::Deleted(keys.copy(alloc)?)),
            Answer::Plan {
                candidates,
                sure,
                refined,
                keys,
            } => Ok(Answer::Plan {
                candidates: *candidates,
                sure: *sure,
                refined: *refined,
                keys: keys.copy(alloc)?,
            }),
        }
    }
}

ghost use Rattle.std.specs.Prelude.{◌≡◌, IfOk, OnErr};
ghost use Rattle.sg_shape.specs.Sound.{IsSound};
ghost use Rattle.sg_plain.specs.Replies.{Means, PlainReply, TakesMemory, effect, looked_at};
ghost use Rattle.sg_plain.specs.Sat.{IsSoundAnswer, IsSoundQuery, IsSoundStatement};

use crate::rows::PlainRows;
use crate::scans::keys_with;
use crate::statements::{Answer, Query, Statement, Test};
use sg_shape::{Judge, Pred, Shape};
use std::alloc::{AllocError, Global};

/// Answers a statement as a table without an index does, and leaves the rows after it. `AllocError` is want of memory,
/// and never comes where none is taken: for a delete, and where a key isn't there to be read or updated, or is there
/// already. The rows are then as they were.
pub fn eval<J: Judge>(
    alloc: Global,
    judge: &J,
    rows: &mut PlainRows,
    statement: &Statement,
) -> Result<Answer, AllocError>
    requires { IsSoundStatement statement.now }
    ensures reply { IfOk result (PlainReply rows.old statement.now) }
    ensures means { IfOk result (Means rows.old statement.now) }
    ensures effect { IfOk result (λ answer. rows.new ≡ effect statement.now answer rows.old) }
    ensures sound { IfOk result IsSoundAnswer }
    ensures err { OnErr result (rows.new ≡ rows.old) }
    ensures memory { OnErr result (TakesMemory rows.old statement.now) }
{
    rows.in_order();
    answer(alloc, judge, rows, statement)
}

fn answer<J: Judge>(
    alloc: Global,
    judge: &J,
    rows: &mut PlainRows,
    statement: &Statement,
) -> Result<Answer, AllocError>
    requires { IsSoundStatement statement.now }
    ensures reply { IfOk result (PlainReply rows.old statement.now) }
    ensures means { IfOk result (Means rows.old statement.now) }
    ensures effect { IfOk result (λ answer. rows.new ≡ effect statement.now answer rows.old) }
    ensures err { OnErr result (rows.new ≡ rows.old) }
    ensures memory { OnErr result (TakesMemory rows.old statement.now) }
{
    match statement {
        Statement::Insert(key, shape) => insert(alloc, rows, *key, shape),
        Statement::Update(key, shape) => update(alloc, rows, *key, shape),
        Statement::Delete(key) => Ok(delete(rows, *key)),
        Statement::Get(key) => get(alloc, rows, *key),
        Statement::Select(query) => {
            let keys = keys_with(alloc, judge, rows.as_slice(), query.test, &query.shape)?;
            Ok(Answer::Keys(keys))
        }
        Statement::Filter(shape) => {
            let meeting = Test::Relate(Pred::Intersects);
            let keys = keys_with(alloc, judge, rows.as_slice(), meeting, shape)?;
            Ok(Answer::Keys(keys))
        }
        Statement::DeleteWhere(query) => delete_where(alloc, judge, rows, query),
        Statement::Plan(query) => plan(alloc, judge, rows, query),
    }
}

fn insert(
    alloc: Global,
    rows: &mut PlainRows,
    key: u32,
    shape: &Shape,
) -> Result<Answer, AllocError>
    requires { IsSound shape.now }
    ensures means { IfOk result (Means rows.old (Statement.Insert key shape.now)) }
    ensures effect { IfOk result (λ answer. rows.new ≡ effect (Statement.Insert key shape.now) answer rows.old) }
    ensures err { OnErr result (rows.new ≡ rows.old) }
    ensures memory { OnErr result (TakesMemory rows.old (Statement.Insert key shape.now)) }
{
    match rows.search(key) {
        Ok(_) => Ok(Answer::Duplicate),
        Err(place) => {
            let copy = shape.copy(alloc)?;
            rows.insert_at(place, key, copy)?;
            Ok(Answer::Inserted)
        }
    }
}

fn update(
    alloc: Global,
    rows: &mut PlainRows,
    key: u32,
    shape: &Shape,
) -> Result<Answer, AllocError>
    requires { IsSound shape.now }
    ensures means { IfOk result (Means rows.old (Statement.Update key shape.now)) }
    ensures effect { IfOk result (λ answer. rows.new ≡ effect (Statement.Update key shape.now) answer rows.old) }
    ensures err { OnErr result (rows.new ≡ rows.old) }
    ensures memory { OnErr result (TakesMemory rows.old (Statement.Update key shape.now)) }
{
    match rows.search(key) {
        Ok(place) => {
            let copy = shape.copy(alloc)?;
            rows.replace_at(place, copy);
            Ok(Answer::Done)
        }
        Err(_) => Ok(Answer::Missing),
    }
}

fn delete(rows: &mut PlainRows, key: u32) -> Answer
    ensures means { Means rows.old (Statement.Delete key) result }
    ensures effect { rows.new ≡ effect (Statement.Delete key) result rows.old }
{
    match rows.search(key) {
        Ok(place) => {
            rows.remove_at(place);
            Answer::Done
        }
        Err(_) => Answer::Missing,
    }
}

fn get(alloc: Global, rows: &PlainRows, key: u32) -> Result<Answer, AllocError>
    ensures means { IfOk result (Means rows.now (Statement.Get key)) }
    ensures memory { OnErr result (TakesMemory rows.now (Statement.Get key)) }
{
    match rows.shape_at(key) {
        Some(shape) => Ok(Answer::Found(shape.copy(alloc)?)),
        None => Ok(Answer::Absent),
    }
}

fn delete_where<J: Judge>(
    alloc: Global,
    judge: &J,
    rows: &mut PlainRows,
    query: &Query,
) -> Result<Answer, AllocError>
    requires { IsSoundQuery query.now }
    ensures means { IfOk result (Means rows.old (Statement.DeleteWhere query.now)) }
    ensures effect { IfOk result (λ answer. rows.new ≡ effect (Statement.DeleteWhere query.now) answer rows.old) }
    ensures err { OnErr result (rows.new ≡ rows.old) }
{
    let keys = keys_with(alloc, judge, rows.as_slice(), query.test, &query.shape)?;
    rows.remove_all(keys.as_slice());
    Ok(Answer::Deleted(keys))
}

/// How a search without an index finds the rows that satisfy the query, and which they are.
fn plan<J: Judge>(
    alloc: Global,
    judge: &J,
    rows: &PlainRows,
    query: &Query,
) -> Result<Answer, AllocError>
    requires { IsSoundQuery query.now }
    ensures reply { IfOk result (PlainReply rows.now (Statement.Plan query.now)) }
    ensures means { IfOk result (Means rows.now (Statement.Plan query.now)) }
    ensures effect { IfOk result (λ answer. rows.now ≡ effect (Statement.Plan query.now) answer rows.now) }
{
    let keys = keys_with(alloc, judge, rows.as_slice(), query.test, &query.shape)?;
    let candidates = looked_at(&query.shape, rows);
    Ok(Answer::Plan {
        candidates,
        sure: 0,
        refined: candidates,
        keys,
    })
}

/// How many rows such a search looks at.
fn looked_at(shape: &Shape, rows: &PlainRows) -> u64
    ensures { result ≡ looked_at shape.now rows.now }
{
    match shape {
        Shape::Empty(_) => 0,
        _ => rows.len() as u64,
    }
}

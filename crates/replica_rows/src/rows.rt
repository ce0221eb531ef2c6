//! What one reader sees.
ghost use Rattle.std.specs.Prelude.{◌≡◌};

use crate::desks::{Desk, next_reader};
use crate::stops::Stop;
use crate::tables::{meeting, point};
use sg_plain::{PlainRows, Statement};
use sg_relate::Relate;
use sg_replica::{Seen, Snapshot};
use std::alloc::Global;
use std::sync::Wait;
use std::thread::Threads;

/// A row is committed. It is asked for before it is published, and once the reader was told; and a place is filtered
/// where nothing lies.
pub fn one_insert<R: Threads + Wait + Sync>(rt: &R, alloc: Global) -> Result<Vec<Seen>, Stop> {
    let (mut desk, mut snapshots) = Desk::open(rt, alloc, PlainRows::new(alloc), 1)?;
    let seen = match next_reader(&mut snapshots) {
        Ok(mut snapshot) => watch_insert(rt, alloc, &mut desk, &mut snapshot),
        Err(stop) => Err(stop),
    };
    desk.close(rt);
    seen
}

fn watch_insert<R: Threads + Wait + Sync>(
    rt: &R,
    alloc: Global,
    desk: &mut Desk,
    snapshot: &mut Snapshot,
) -> Result<Vec<Seen>, Stop>
    requires { snapshot.old.book ≡ desk.old.book }
{
    let mut all = Vec::new(alloc);
    desk.change(rt, alloc, Statement::Insert(2, point(1, 1)?))?;
    all.push(snapshot.ask(rt, alloc, &Relate, &Statement::Get(2))?)?;
    if desk.catch_up(rt)? != 1 {
        return Err(Stop::Unexpected);
    }
    snapshot.learn(desk.tell());
    all.push(snapshot.ask(rt, alloc, &Relate, &Statement::Get(2))?)?;
    let elsewhere = point(9, 9)?;
    all.push(snapshot.ask(rt, alloc, &Relate, &Statement::Filter(elsewhere))?)?;
    Ok(all)
}

/// Rows are inserted, moved and deleted, by key and by a query, and one transaction is rolled back. All are asked for
/// before and after.
pub fn all_changes<R: Threads + Wait + Sync>(rt: &R, alloc: Global) -> Result<Vec<Seen>, Stop> {
    let mut rows = PlainRows::new(alloc);
    rows.push(5, point(5, 5)?)?;
    rows.push(7, point(7, 7)?)?;
    let (mut desk, mut snapshots) = Desk::open(rt, alloc, rows, 64)?;
    let seen = match next_reader(&mut snapshots) {
        Ok(mut snapshot) => watch_changes(rt, alloc, &mut desk, &mut snapshot),
        Err(stop) => Err(stop),
    };
    desk.close(rt);
    seen
}

fn watch_changes<R: Threads + Wait + Sync>(
    rt: &R,
    alloc: Global,
    desk: &mut Desk,
    snapshot: &mut Snapshot,
) -> Result<Vec<Seen>, Stop>
    requires { snapshot.old.book ≡ desk.old.book }
{
    let mut all = Vec::new(alloc);
    change_rows(rt, alloc, desk)?;
    all.push(meeting_at(rt, alloc, snapshot, 7)?)?;
    if desk.catch_up(rt)? != 4 || desk.catch_up(rt)? != 4 {
        return Err(Stop::Unexpected);
    }
    snapshot.learn(desk.tell());
    all.push(meeting_at(rt, alloc, snapshot, 7)?)?;
    all.push(meeting_at(rt, alloc, snapshot, 9)?)?;
    all.push(snapshot.ask(rt, alloc, &Relate, &Statement::Get(2))?)?;
    all.push(snapshot.ask(rt, alloc, &Relate, &Statement::Get(3))?)?;
    Ok(all)
}

/// The rows that meet the point with both coordinates so.
fn meeting_at<R: Wait>(
    rt: &R,
    alloc: Global,
    snapshot: &mut Snapshot,
    at: i32,
) -> Result<Seen, Stop>
    ensures { snapshot.new.book ≡ snapshot.old.book }
{
    let statement = Statement::Select(meeting(point(at, at)?));
    Ok(snapshot.ask(rt, alloc, &Relate, &statement)?)
}

/// Four transactions commit: two change rows by key, one reads, and one deletes by a query; between them one is rolled
/// back.
fn change_rows<R: Threads + Sync>(rt: &R, alloc: Global, desk: &mut Desk) -> Result<(), Stop>
    ensures { desk.new ≡ desk.old }
{
    desk.begin()?;
    desk.execute(rt, alloc, Statement::Insert(2, point(1, 1)?))?;
    desk.execute(rt, alloc, Statement::Get(2))?;
    desk.execute(rt, alloc, Statement::Update(5, point(9, 9)?))?;
    desk.commit()?;
    desk.begin()?;
    desk.execute(rt, alloc, Statement::Delete(7))?;
    desk.execute(rt, alloc, Statement::Delete(8))?;
    desk.commit()?;
    desk.change(rt, alloc, Statement::Get(2))?;
    desk.begin()?;
    desk.execute(rt, alloc, Statement::Insert(3, point(3, 3)?))?;
    desk.roll_back()?;
    desk.begin()?;
    desk.execute(rt, alloc, Statement::DeleteWhere(meeting(point(9, 9)?)))?;
    desk.execute(rt, alloc, Statement::Insert(9, point(9, 9)?))?;
    desk.commit()
}

//! What is told of whole runs.

ghost use Rattle.std.specs.Prelude.{All, IfOk, IfSome};
ghost use Rattle.sg_plain.specs.Sat.{AreSoundAnswers};
ghost use Rattle.sg_texts.specs.Sound.{AreSoundCommits, IsSoundLabel};

use crate::{Committed, Ending, Other, Told, tell};
use sg_modes::{Schedule, Session, Sessions};
use sg_plain::{Answer, PlainRows};
use sg_shape::{Kind, Shape, Spot};
use sg_trace::Label;
use std::alloc::{AllocError, Global};
use std::test::Fail;

fn session(number: u8) -> Result<Session, Fail> {
    Ok(Session::new(number).ok_or("a session has a number from 1 to 64")?)
}

/// Whether this is told.
fn is_told(alloc: Global, told: &Told, wanted: &[u8]) -> bool
    requires commits { AreSoundCommits told.now.commits }
    requires labels { IfSome told.now.labels (λ labels. All IsSoundLabel labels) }
{
    match tell(alloc, told) {
        Ok(text) => text.as_slice() == wanted,
        Err(_) => false,
    }
}

/// A commit with these answers.
fn commits_of<'a>(
    alloc: Global,
    session: Session,
    answers: &'a [Answer],
) -> Result<Vec<Committed<'a>>, AllocError>
    requires { AreSoundAnswers answers.now }
    ensures { IfOk result (λ commits. AreSoundCommits commits.items) }
{
    let mut commits = Vec::new(alloc);
    commits.push(Committed {
        session,
        transaction: 1,
        answers,
    })?;
    Ok(commits)
}

/// A session that fell as the victim of a cycle.
fn victim(alloc: Global, session: Session, cycle: Sessions) -> Result<Vec<Other>, AllocError> {
    let mut others = Vec::new(alloc);
    others.push(Other {
        session,
        transaction: 1,
        ending: Ending::Victim { cycle },
    })?;
    Ok(others)
}

fn two_points(alloc: Global) -> Result<PlainRows, AllocError> {
    let mut rows = PlainRows::new(alloc);
    rows.push(1, Shape::Point(Spot { x: 10, y: 10 }))?;
    rows.push(2, Shape::Point(Spot { x: 20, y: 20 }))?;
    Ok(rows)
}

fn tells_a_deadlock(alloc: Global, one: Session, two: Session) -> Result<bool, AllocError> {
    let answers = [Answer::Done, Answer::Done];
    let told = Told {
        commits: commits_of(alloc, one, answers.as_slice())?,
        others: victim(alloc, two, Sessions::none().with(one).with(two))?,
        rows: two_points(alloc)?,
        labels: None,
        schedule: None,
    };
    let wanted =
        b"commit 1 session 1 transaction 1\n  done\n  done\nvictim session 2 transaction 1 cycle 1 2\nrows 2\n  1 POINT (10 10)\n  2 POINT (20 20)\n";
    Ok(is_told(alloc, &told, wanted.as_slice()))
}

#[test]
fn a_deadlock(rt: HostRuntime) -> Result<(), Fail> {
    let one = session(1)?;
    let two = session(2)?;
    assert!(rt; tells_a_deadlock(rt.alloc(), one, two)?);
    Ok(())
}

/// A transaction of each ending.
fn endings(alloc: Global, three: Session, last: Session) -> Result<Vec<Other>, AllocError> {
    let mut others = victim(alloc, three, Sessions::none().with(three).with(last))?;
    others.push(Other {
        session: three,
        transaction: 2,
        ending: Ending::RolledBack,
    })?;
    others.push(Other {
        session: last,
        transaction: 12,
        ending: Ending::NoMemory,
    })?;
    Ok(others)
}

/// A point and an EMPTY, with the greatest key.
fn least_and_last(alloc: Global) -> Result<PlainRows, AllocError> {
    let mut rows = PlainRows::new(alloc);
    rows.push(1, Shape::Point(Spot { x: 3, y: -4 }))?;
    rows.push(4_294_967_295, Shape::Empty(Kind::Line))?;
    Ok(rows)
}

fn tells_every_ending(alloc: Global, three: Session, last: Session) -> Result<bool, AllocError> {
    let told = Told {
        commits: Vec::new(alloc),
        others: endings(alloc, three, last)?,
        rows: least_and_last(alloc)?,
        labels: None,
        schedule: None,
    };
    let wanted =
        b"victim session 3 transaction 1 cycle 3 64\nrolled back session 3 transaction 2\nno memory session 64 transaction 12\nrows 2\n  1 POINT (3 -4)\n  4294967295 LINESTRING EMPTY\n";
    Ok(is_told(alloc, &told, wanted.as_slice()))
}

#[test]
fn every_ending(rt: HostRuntime) -> Result<(), Fail> {
    let three = session(3)?;
    let last = session(64)?;
    assert!(rt; tells_every_ending(rt.alloc(), three, last)?);
    Ok(())
}

fn turns_of(alloc: Global, one: Session, two: Session) -> Result<Schedule, AllocError> {
    let mut turns = Schedule::new(alloc);
    turns.push(two)?;
    turns.push(one)?;
    Ok(turns)
}

fn tells_labels(alloc: Global, one: Session, two: Session) -> Result<bool, AllocError> {
    let turns = turns_of(alloc, one, two)?;
    let labels = [Label::Begin {
        session: two,
        transaction: 1,
    }];
    let told = Told {
        commits: Vec::new(alloc),
        others: Vec::new(alloc),
        rows: PlainRows::new(alloc),
        labels: Some(labels.as_slice()),
        schedule: Some(turns),
    };
    let wanted = b"rows 0\nlabels 1\n  session 2 begin 1\nschedule 2 1\n";
    Ok(is_told(alloc, &told, wanted.as_slice()))
}

#[test]
fn labels_and_turns(rt: HostRuntime) -> Result<(), Fail> {
    let one = session(1)?;
    let two = session(2)?;
    assert!(rt; tells_labels(rt.alloc(), one, two)?);
    Ok(())
}

fn tells_no_label(alloc: Global) -> bool {
    let labels: [Label; 0] = [];
    let told = Told {
        commits: Vec::new(alloc),
        others: Vec::new(alloc),
        rows: PlainRows::new(alloc),
        labels: Some(labels.as_slice()),
        schedule: Some(Schedule::new(alloc)),
    };
    is_told(alloc, &told, b"rows 0\nlabels 0\nschedule\n".as_slice())
}

#[test]
fn no_label(rt: HostRuntime) -> Result<(), Fail> {
    assert!(rt; tells_no_label(rt.alloc()));
    Ok(())
}

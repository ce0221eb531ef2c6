use super::*;
use sg_cells::Key;
use sg_modes::{Mode, Session, Sessions};
use sg_plain::{Answer, Statement};
use std::test::Fail;

#[test]
fn laws_are_called(_rt: HostRuntime) {
    candidate_laws();
    reply_laws();
}

fn session(number: u8) -> Result<Session, Fail> {
    Ok(Session::new(number).ok_or("a session has a number from 1 to 64")?)
}

#[test]
fn room(rt: HostRuntime) -> Result<(), Fail> {
    let mut numbers: Roomy<u32> = Roomy::new(rt.alloc());
    assert_eq!(rt; numbers.len(), 0);
    assert!(rt; numbers.push(5).is_ok());
    numbers.reserve(2)?;
    assert!(rt; numbers.room() >= 2);
    numbers.push_reserved(7);
    numbers.push_reserved(9);
    assert!(rt; numbers.push(11).is_ok());
    assert_eq!(rt; numbers.len(), 4);
    assert_eq!(rt; numbers.at(2), Some(&9));
    assert_eq!(rt; numbers.at(4), None);
    assert_eq!(rt; numbers.as_slice().len(), 4);
    Ok(())
}

#[test]
fn journal(rt: HostRuntime) -> Result<(), Fail> {
    let mut statements: KeptStatements = Roomy::new(rt.alloc());
    assert!(rt; statements.push(Statement::Get(3)).is_ok());
    let mut answers: KeptAnswers = Roomy::new(rt.alloc());
    assert!(rt; answers.push(Answer::Absent).is_ok());
    let mut journal: Journal = Roomy::new(rt.alloc());
    journal.reserve(1)?;
    journal.push_reserved(JournalEntry::new(session(4)?, 2, statements, answers));
    let entry = journal.at(0).ok_or("an entry")?;
    assert_eq!(rt; entry.session(), session(4)?);
    assert_eq!(rt; entry.transaction(), 2);
    assert!(rt; matches!(entry.statements(), [Statement::Get(3)]));
    assert_eq!(rt; entry.answers().len(), 1);
    Ok(())
}

// A victim's label came of no turn.
#[test]
fn turns(rt: HostRuntime) -> Result<(), Fail> {
    let one = session(1)?;
    let two = session(2)?;
    let mut trace: Trace = Roomy::new(rt.alloc());
    trace.reserve(5)?;
    trace.push_reserved(Label::Begin {
        session: two,
        transaction: 1,
    });
    trace.push_reserved(Label::Take {
        session: one,
        key: Key::RowEnd,
        mode: Mode::RangeSS,
    });
    trace.push_reserved(Label::Wait {
        session: two,
        key: Key::Row(4),
        mode: Mode::X,
        blockers: Sessions::none().with(one),
    });
    trace.push_reserved(Label::Victim {
        session: one,
        cycle: Sessions::none().with(one).with(two),
    });
    trace.push_reserved(Label::Rollback {
        session: two,
        cause: Cause::Asked,
    });
    let schedule = schedule_of(rt.alloc(), &trace)?;
    assert_eq!(rt; schedule.len(), 4);
    assert_eq!(rt; schedule.at(0), Some(two));
    assert_eq!(rt; schedule.at(1), Some(one));
    assert_eq!(rt; schedule.at(2), Some(two));
    assert_eq!(rt; schedule.at(3), Some(two));
    Ok(())
}

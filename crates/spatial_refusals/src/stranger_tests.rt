// Results that aren't of the job which a session waits for.
use sg_celltest::CellTest;
use sg_engine::Stranger;
use sg_modes::Session;
use sg_refine::{OpenGate, RefineDone, refine};
use sg_relate::Relate;
use sg_run::{Run, Turn};
use sg_script::read_script;
use std::alloc::Global;
use std::mem::ManuallyDrop;
use std::test::Fail;
use std::thread::Threads;

const MINE: &[u8] =
    b"row 1 POINT (2 2)\nrow 2 POINT (9 9)\nsession 1\nbegin\nselect intersects POINT (2 2)\ncommit\nsession 2\nbegin\ncommit\n";

/// The same search as the second statement.
const LATER: &[u8] =
    b"row 1 POINT (2 2)\nrow 2 POINT (9 9)\nsession 1\nbegin\nget 1\nselect intersects POINT (2 2)\ncommit\n";

/// A search for another shape.
const ELSEWHERE: &[u8] =
    b"row 1 POINT (2 2)\nrow 2 POINT (9 9)\nsession 1\nbegin\nselect intersects POINT (9 9)\ncommit\n";

/// The same search among other rows, and among fewer.
const OTHERS: &[u8] =
    b"row 1 POINT (2 2)\nrow 3 POINT (9 9)\nsession 1\nbegin\nselect intersects POINT (2 2)\ncommit\n";

const FEWER: &[u8] =
    b"row 1 POINT (2 2)\nsession 1\nbegin\nselect intersects POINT (2 2)\ncommit\n";

/// A run with the judges of the program. It isn't let go: its process ends with the test, and no test has to be proved
/// to let go of all that a run holds.
type Real = ManuallyDrop<Run<Relate, CellTest>>;

fn session(number: u8) -> Result<Session, Fail> {
    Ok(Session::new(number).ok_or("a session has a number from 1 to 64")?)
}

/// A run of the script, in which nothing has happened.
fn opened<R: Threads + Sync>(rt: &R, alloc: Global, script: &[u8]) -> Result<Real, Fail> {
    if script.len() > 1_000 {
        return Err(Fail::from("too long"));
    }
    let Ok(script) = read_script(alloc, script) else {
        return Err(Fail::from("no script"));
    };
    match Run::open(rt, alloc, Relate, CellTest, script) {
        Ok(run) => Ok(ManuallyDrop::new(run)),
        Err(_) => Err(Fail::from("no memory for a run")),
    }
}

/// Session 1 has turns until a job is given out, which is refined.
fn refined<R: Threads + Sync>(rt: &R, alloc: Global, run: &mut Real) -> Result<RefineDone, Fail> {
    for _ in 0..20u32 {
        if let Turn::Job(job) = run.turn(session(1)?) {
            return match refine(rt, alloc, &Relate, 1, &OpenGate, job) {
                Ok(done) => Ok(done),
                Err(_) => Err(Fail::from("no memory to refine")),
            };
        }
    }
    Err(Fail::from("no job is given out"))
}

/// The result of the first job of session 1 in a run of the script.
fn result_of<R: Threads + Sync>(rt: &R, alloc: Global, script: &[u8]) -> Result<RefineDone, Fail> {
    let mut run = opened(rt, alloc, script)?;
    refined(rt, alloc, &mut run)
}

/// A session gets a result that isn't its own: why that is refused, or `None` where it is taken. What session 1 waits
/// for is taken then.
fn refused(
    run: &mut Real,
    asked: Session,
    other: RefineDone,
    mine: RefineDone,
) -> Result<Option<Stranger>, Fail> {
    let waiting = session(1)?;
    let refusal = run.hand_in(asked, other).err();
    if run.hand_in(waiting, mine).is_err() {
        return Err(Fail::from("its own result is refused"));
    }
    Ok(refusal)
}

/// Why session 1 refuses the result of the first job in a run of the script.
fn refusal_of<R: Threads + Sync>(
    rt: &R,
    alloc: Global,
    script: &[u8],
) -> Result<Option<Stranger>, Fail> {
    let mut run = opened(rt, alloc, MINE)?;
    let asked = session(1)?;
    let mine = refined(rt, alloc, &mut run)?;
    let other = result_of(rt, alloc, script)?;
    refused(&mut run, asked, other, mine)
}

#[test]
fn it_has_another_name(rt: HostRuntime) -> Result<(), Fail> {
    let refusal = refusal_of(&rt, rt.alloc(), LATER)?;
    assert!(rt;
        matches!(
            refusal,
            Some(Stranger::Name {
                expected: Some(_),
                ..
            })
        )
    );
    Ok(())
}

#[test]
fn it_asks_for_another_shape(rt: HostRuntime) -> Result<(), Fail> {
    let refusal = refusal_of(&rt, rt.alloc(), ELSEWHERE)?;
    assert!(rt; matches!(refusal, Some(Stranger::Asked { .. })));
    Ok(())
}

#[test]
fn it_has_other_candidates(rt: HostRuntime) -> Result<(), Fail> {
    let refusal = refusal_of(&rt, rt.alloc(), OTHERS)?;
    assert!(rt; matches!(refusal, Some(Stranger::Item { at: 1 })));
    let refusal = refusal_of(&rt, rt.alloc(), FEWER)?;
    assert!(rt; matches!(refusal, Some(Stranger::Item { at: 1 })));
    Ok(())
}

#[test]
fn nobody_waits_for_it(rt: HostRuntime) -> Result<(), Fail> {
    let mut run = opened(&rt, rt.alloc(), MINE)?;
    let idle = session(2)?;
    let done = refined(&rt, rt.alloc(), &mut run)?;
    let mine = refined(&rt, rt.alloc(), &mut run)?;
    let refusal = refused(&mut run, idle, done, mine)?;
    assert!(rt; matches!(refusal, Some(Stranger::Name { expected: None, .. })));
    Ok(())
}

/// Session 1 gets its result twice: why the second time is refused, or `None` where it is taken again.
fn refused_again(
    run: &mut Real,
    waiting: Session,
    first: RefineDone,
    again: RefineDone,
) -> Result<Option<Stranger>, Fail> {
    if run.hand_in(waiting, first).is_err() {
        return Err(Fail::from("its own result is refused"));
    }
    Ok(run.hand_in(waiting, again).err())
}

// A job is given again until its result has come, and the result is taken once.
#[test]
fn it_is_given_again(rt: HostRuntime) -> Result<(), Fail> {
    let mut run = opened(&rt, rt.alloc(), MINE)?;
    let waiting = session(1)?;
    let first = refined(&rt, rt.alloc(), &mut run)?;
    let again = refined(&rt, rt.alloc(), &mut run)?;
    let refusal = refused_again(&mut run, waiting, first, again)?;
    assert!(rt; matches!(refusal, Some(Stranger::Name { expected: None, .. })));
    Ok(())
}

// Scripts that are made from a number.
use crate::tests::{USAGE, called, sink, source, words};
use sg_io::MemorySink;
use sg_program::{Status, make_main};
use sg_refine::OpenGate;
use std::alloc::Global;
use std::process::Abort;
use std::test::Fail;
use std::thread::Threads;

const FRONT: &[u8] = b"grid 0 0 100000 100000 medium medium medium medium 16\n\
window 64\n\
row 1 POLYGON ((63278 92231, ";

/// Makes the script of seed 7, with 5 rows and 3 sessions.
fn made<R: Abort + Threads + Sync>(rt: &R, alloc: Global) -> Result<MemorySink, Fail> {
    let words = words(alloc, &[b"make", b"7", b"5", b"3"])?;
    let mut none = source(alloc, b"")?;
    let mut out = sink(alloc)?;
    let mut err = sink(alloc)?;
    let status = make_main(rt, alloc, &words, &mut none, &mut out, &mut err, &OpenGate);
    assert_eq!(rt; status, Status::Done);
    assert!(rt; err.taken().is_empty());
    Ok(out)
}

#[test]
fn makes_one_script(rt: HostRuntime) -> Result<(), Fail> {
    let once = made(&rt, rt.alloc())?;
    let again = made(&rt, rt.alloc())?;
    assert!(rt; once.taken().starts_with(FRONT));
    assert!(rt; once.taken() == again.taken());
    Ok(())
}

#[test]
fn what_is_made_is_a_script(rt: HostRuntime) -> Result<(), Fail> {
    let alloc = rt.alloc();
    let made = made(&rt, alloc)?;
    let ended = called(&rt, alloc, &words(alloc, &[b"replay"])?, made.taken())?;
    assert_eq!(rt; ended.status, Status::Done);
    assert!(rt; ended.out.taken().starts_with(b"commit 1 session "));
    Ok(())
}

#[test]
fn a_replay_is_not_made(rt: HostRuntime) -> Result<(), Fail> {
    let alloc = rt.alloc();
    let mut none = source(alloc, b"")?;
    let mut out = sink(alloc)?;
    let mut err = sink(alloc)?;
    let words = words(alloc, &[b"replay"])?;
    let status = make_main(&rt, alloc, &words, &mut none, &mut out, &mut err, &OpenGate);
    assert_eq!(rt; status, Status::Usage);
    assert!(rt; out.taken().is_empty());
    assert!(rt; err.taken() == USAGE);
    Ok(())
}

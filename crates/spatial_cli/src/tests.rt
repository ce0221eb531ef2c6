// What the tests share, and the first scripts.
use sg_command::Words;
use sg_io::{MemorySink, MemorySource};
use sg_program::{Status, spatial_main};
use sg_refine::OpenGate;
use std::alloc::Global;
use std::process::Abort;
use std::sync::Wait;
use std::test::Fail;
use std::thread::Threads;

/// The script of examples/first.script, and what it prints.
pub const FIRST: &[u8] = b"session 1\n\
begin\n\
insert 1 POINT (3 4)\n\
select intersects POINT (3 4)\n\
commit\n";

pub const FIRST_TEXT: &[u8] =
    b"commit 1 session 1 transaction 1\n  inserted\n  keys 1\nrows 1\n  1 POINT (3 4)\n";

pub const USAGE: &[u8] =
    b"usage: spatial_cli replay [--workers N] [--labels] | threads [--workers N] [--labels] [--trace] | make SEED ROWS SESSIONS\n";

/// These words.
pub fn words(alloc: Global, texts: &[&[u8]]) -> Result<Words, Fail> {
    let mut words = Words::new(alloc);
    for text in texts {
        words
            .push(Vec::from_slice(alloc, text)?)
            .map_err(|_| "no memory for a word")?;
    }
    Ok(words)
}

pub fn source(alloc: Global, text: &[u8]) -> Result<MemorySource, Fail> {
    Ok(MemorySource::new(Vec::from_slice(alloc, text)?, 100, Vec::new(alloc)))
}

pub fn sink(alloc: Global) -> Result<MemorySink, Fail> {
    Ok(MemorySink::new(alloc, 100, 65_536, Vec::new(alloc))?)
}

/// How a call ended, what is on its output, and what it said.
#[derive(Drop)]
pub struct Ended {
    pub status: Status,
    pub out: MemorySink,
    pub err: MemorySink,
}

/// Calls the program with the words, on the script.
pub fn called<R: Threads + Wait + Sync>(
    rt: &R,
    alloc: Global,
    words: &Words,
    script: &[u8],
) -> Result<Ended, Fail> {
    let mut source = source(alloc, script)?;
    let mut out = sink(alloc)?;
    let mut err = sink(alloc)?;
    let status = spatial_main(rt, alloc, words, &mut source, &mut out, &mut err, &OpenGate);
    Ok(Ended { status, out, err })
}

/// By these words the script prints this text.
pub fn prints_by<R: Abort + Threads + Wait + Sync>(
    rt: &R,
    alloc: Global,
    texts: &[&[u8]],
    script: &[u8],
    text: &[u8],
) -> Result<(), Fail> {
    let ended = called(rt, alloc, &words(alloc, texts)?, script)?;
    assert_eq!(rt; ended.status, Status::Done);
    assert!(rt; ended.out.taken() == text);
    assert!(rt; ended.err.taken().is_empty());
    Ok(())
}

/// A script is replayed, and the text that is printed is this one.
pub fn prints<R: Abort + Threads + Wait + Sync>(
    rt: &R,
    alloc: Global,
    script: &[u8],
    text: &[u8],
) -> Result<(), Fail> {
    prints_by(rt, alloc, &[b"replay"], script, text)
}

/// A script is replayed, and the text that is printed with its labels is this one.
pub fn labels<R: Abort + Threads + Wait + Sync>(
    rt: &R,
    alloc: Global,
    script: &[u8],
    text: &[u8],
) -> Result<(), Fail> {
    prints_by(rt, alloc, &[b"replay", b"--labels"], script, text)
}

/// Puts a schedule line last: so many turns of the session, one after another.
pub fn put_turns(text: &mut Vec<u8>, session: &[u8], turns: u32) -> Result<(), Fail> {
    text.extend_from_slice(b"schedule")?;
    for _ in 0..turns {
        text.extend_from_slice(b" ")?;
        text.extend_from_slice(session)?;
    }
    text.extend_from_slice(b"\n")?;
    Ok(())
}

#[test]
fn an_empty_script(rt: HostRuntime) -> Result<(), Fail> {
    prints(&rt, rt.alloc(), b"", b"rows 0\n")
}

#[test]
fn one_point(rt: HostRuntime) -> Result<(), Fail> {
    prints(&rt, rt.alloc(), FIRST, FIRST_TEXT)
}

#[test]
fn a_key_that_is_there(rt: HostRuntime) -> Result<(), Fail> {
    prints(
        &rt,
        rt.alloc(),
        b"row 1 POINT (0 0)\n\
          session 1\n\
          begin\n\
          insert 1 POINT (5 5)\n\
          get 1\n\
          commit\n",
        b"commit 1 session 1 transaction 1\n  duplicate\n  shape POINT (0 0)\nrows 1\n  1 POINT (0 0)\n",
    )
}

// What the process does with its arguments, and the number that it ends with.
use crate::tests::{FIRST, FIRST_TEXT, USAGE, sink, source};
use sg_program::process_main;
use sg_refine::OpenGate;
use std::alloc::Global;
use std::env::Args;
use std::io;
use std::io::ErrorKind;
use std::process::Abort;
use std::sync::Wait;
use std::test::Fail;
use std::thread::Threads;

/// The program's name and this word.
fn args(alloc: Global, word: &str) -> Result<Args, Fail> {
    let mut all = Vec::new(alloc);
    all.push(String::from_str(alloc, "spatial_cli")?)
        .map_err(|_| "no memory for a name")?;
    all.push(String::from_str(alloc, word)?)
        .map_err(|_| "no memory for a word")?;
    Ok(all.into_iter())
}

/// With these arguments and the first example, the process ends with this number, having printed and said these texts.
fn ends<R: Abort + Threads + Wait + Sync>(
    rt: &R,
    alloc: Global,
    args: io::Result<Args>,
    number: u8,
    text: &[u8],
    said: &[u8],
) -> Result<(), Fail> {
    let mut source = source(alloc, FIRST)?;
    let mut out = sink(alloc)?;
    let mut err = sink(alloc)?;
    let ended = process_main(rt, alloc, args, &mut source, &mut out, &mut err, &OpenGate);
    assert_eq!(rt; ended, number);
    assert!(rt; out.taken() == text);
    assert!(rt; err.taken() == said);
    Ok(())
}

#[test]
fn a_process_replays(rt: HostRuntime) -> Result<(), Fail> {
    let alloc = rt.alloc();
    let words = args(alloc, "replay")?;
    ends(&rt, alloc, Ok(words), 0, FIRST_TEXT, b"")
}

#[test]
fn a_process_has_other_words(rt: HostRuntime) -> Result<(), Fail> {
    let alloc = rt.alloc();
    let words = args(alloc, "play")?;
    ends(&rt, alloc, Ok(words), 1, b"", USAGE)
}

#[test]
fn a_process_has_no_texts(rt: HostRuntime) -> Result<(), Fail> {
    let alloc = rt.alloc();
    let none = io::Error::from(ErrorKind::InvalidData);
    ends(&rt, alloc, Err(none), 1, b"", USAGE)
}

#[test]
fn a_process_finds_no_memory(rt: HostRuntime) -> Result<(), Fail> {
    let alloc = rt.alloc();
    let none = io::Error::from(ErrorKind::OutOfMemory);
    ends(&rt, alloc, Err(none), 5, b"", b"out of memory\n")
}

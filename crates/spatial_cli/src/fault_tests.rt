// Texts that are refused, devices that fail, and words that have no form.
use crate::tests::{FIRST, USAGE, called, prints, sink, source, words};
use sg_command::Words;
use sg_io::{MemorySink, MemorySource};
use sg_program::{Status, replay_main};
use sg_refine::OpenGate;
use std::alloc::Global;
use std::process::Abort;
use std::sync::Wait;
use std::test::Fail;
use std::thread::Threads;

/// A polygon that ends in its second spot.
const CUT: &[u8] = b"row 1 POLYGON ((0 0, 4 0";

/// A text is refused for this, and nothing is printed of it.
fn refuses<R: Abort + Threads + Wait + Sync>(
    rt: &R,
    alloc: Global,
    script: &[u8],
    line: &[u8],
) -> Result<(), Fail> {
    let ended = called(rt, alloc, &words(alloc, &[b"replay"])?, script)?;
    assert_eq!(rt; ended.status.number(), 2);
    assert!(rt; ended.out.taken().is_empty());
    assert!(rt; ended.err.taken() == line);
    Ok(())
}

#[test]
fn scripts_of_one_line(rt: HostRuntime) -> Result<(), Fail> {
    let alloc = rt.alloc();
    refuses(
        &rt,
        alloc,
        b"grid 5 0 5 9",
        b"script line 1: grid box empty\n",
    )?;
    refuses(&rt, alloc, b"session 65", b"script line 1: session\n")?;
    refuses(
        &rt,
        alloc,
        b"insert 1 POINT (0 0)",
        b"script line 1: word\n",
    )?;
    refuses(&rt, alloc, b"row x POINT (0 0)", b"script line 1: number\n")?;
    refuses(
        &rt,
        alloc,
        b"session 1\nbegin\n",
        b"script line 2: not closed\n",
    )
}

#[test]
fn numbers_of_spots(rt: HostRuntime) -> Result<(), Fail> {
    let alloc = rt.alloc();
    let out = b"script line 1: shape coordinate out at byte 7\n";
    refuses(&rt, alloc, b"row 1 POINT (16000001 0)", out)?;
    let fraction = b"script line 1: shape fraction at byte 7\n";
    refuses(&rt, alloc, b"row 1 POINT (3.5 0)", fraction)?;
    prints(
        &rt,
        alloc,
        b"row 1 point(3.0 -0)",
        b"rows 1\n  1 POINT (3 0)\n",
    )
}

#[test]
fn a_polygon_that_is_cut(rt: HostRuntime) -> Result<(), Fail> {
    refuses(
        &rt,
        rt.alloc(),
        CUT,
        b"script line 1: shape end at byte 18\n",
    )
}

#[test]
fn a_second_read_fails(rt: HostRuntime) -> Result<(), Fail> {
    let alloc = rt.alloc();
    let fails = Vec::from_slice(alloc, &[2u32])?;
    let mut failing = MemorySource::new(Vec::from_slice(alloc, CUT)?, 100, fails);
    let mut out = sink(alloc)?;
    let mut err = sink(alloc)?;
    let words = words(alloc, &[b"replay"])?;
    let status = replay_main(
        &rt,
        alloc,
        &words,
        &mut failing,
        &mut out,
        &mut err,
        &OpenGate,
    );
    assert_eq!(rt; status.number(), 3);
    assert!(rt; out.taken().is_empty());
    assert!(rt; err.taken() == b"read fault\n".as_slice());
    Ok(())
}

#[test]
fn a_second_write_fails(rt: HostRuntime) -> Result<(), Fail> {
    let alloc = rt.alloc();
    let mut first = source(alloc, FIRST)?;
    let mut cut = MemorySink::new(alloc, 10, 65_536, Vec::from_slice(alloc, &[2u32])?)?;
    let mut err = sink(alloc)?;
    let words = words(alloc, &[b"replay"])?;
    let status = replay_main(
        &rt, alloc, &words, &mut first, &mut cut, &mut err, &OpenGate,
    );
    assert_eq!(rt; status.number(), 4);
    assert!(rt; cut.taken() == b"commit 1 s".as_slice());
    assert!(rt; err.taken() == b"write fault\n".as_slice());
    Ok(())
}

/// These words have no form: the usage line is told, and nothing is printed.
fn tells_usage<R: Abort + Threads + Wait + Sync>(
    rt: &R,
    alloc: Global,
    words: &Words,
) -> Result<(), Fail> {
    let ended = called(rt, alloc, words, FIRST)?;
    assert_eq!(rt; ended.status.number(), 1);
    assert!(rt; ended.out.taken().is_empty());
    assert!(rt; ended.err.taken() == USAGE);
    Ok(())
}

#[test]
fn words_without_a_form(rt: HostRuntime) -> Result<(), Fail> {
    let alloc = rt.alloc();
    tells_usage(&rt, alloc, &words(alloc, &[])?)?;
    tells_usage(&rt, alloc, &words(alloc, &[b"replay", b"replay"])?)?;
    tells_usage(&rt, alloc, &words(alloc, &[b"replay", b"--workers", b"0"])?)?;
    tells_usage(&rt, alloc, &words(alloc, &[b"make", b"1", b"0", b"1"])?)
}

#[test]
fn two_words(rt: HostRuntime) -> Result<(), Fail> {
    let twice = words(rt.alloc(), &[b"replay", b"replay"])?;
    assert_eq!(rt; twice.len(), 2);
    assert!(rt; twice.at(1) == Some(b"replay".as_slice()));
    assert!(rt; twice.at(2).is_none());
    let status = twice.form(rt.alloc());
    assert!(rt; matches!(status, Ok(None)));
    assert_eq!(rt; Status::Usage.number(), 1);
    Ok(())
}

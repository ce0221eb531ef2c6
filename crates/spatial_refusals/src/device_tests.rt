// Sources and sinks that fail, and how the program ends then.
use crate::tests::{replay, sink, source};
use sg_command::Words;
use sg_io::{MemorySink, MemorySource};
use sg_program::{Status, replay_main};
use sg_refine::OpenGate;
use std::alloc::Global;
use std::process::Abort;
use std::test::Fail;
use std::thread::Threads;

/// A script of 68 bytes, which 8 reads of 10 bytes take to its end.
const SCRIPT: &[u8] = b"row 1 POINT (0 0)\nsession 1\nbegin\ninsert 1 POINT (5 5)\nget 1\ncommit\n";

/// What it prints: 88 bytes, which 9 writes of 10 bytes take.
const TEXT: &[u8] =
    b"commit 1 session 1 transaction 1\n  duplicate\n  shape POINT (0 0)\nrows 1\n  1 POINT (0 0)\n";

/// A read fails: nothing is printed.
fn ends_at_read<R: Abort + Threads + Sync>(rt: &R, alloc: Global, call: u32) -> Result<(), Fail> {
    let fails = Vec::from_slice(alloc, &[call])?;
    let mut source = MemorySource::new(Vec::from_slice(alloc, SCRIPT)?, 10, fails);
    let mut out = sink(alloc)?;
    let mut err = sink(alloc)?;
    let words = replay(alloc)?;
    let status = replay_main(
        rt,
        alloc,
        &words,
        &mut source,
        &mut out,
        &mut err,
        &OpenGate,
    );
    assert_eq!(rt; status, Status::ReadFault);
    assert!(rt; out.taken().is_empty());
    assert!(rt; err.taken() == b"read fault\n".as_slice());
    Ok(())
}

#[test]
fn each_read_fails(rt: HostRuntime) -> Result<(), Fail> {
    for call in 1..=8u32 {
        ends_at_read(&rt, rt.alloc(), call)?;
    }
    Ok(())
}

/// The script is played into this sink. What is said of it is this text.
fn plays_into<R: Abort + Threads + Sync>(
    rt: &R,
    alloc: Global,
    out: &mut MemorySink,
    said: &[u8],
) -> Result<Status, Fail> {
    let mut source = source(alloc, SCRIPT)?;
    let mut err = sink(alloc)?;
    let words = replay(alloc)?;
    let status = replay_main(rt, alloc, &words, &mut source, out, &mut err, &OpenGate);
    assert!(rt; err.taken() == said);
    Ok(status)
}

/// A write fails: what those before it took is the front of the text.
fn ends_at_write<R: Abort + Threads + Sync>(rt: &R, alloc: Global, call: u32) -> Result<(), Fail> {
    let fails = Vec::from_slice(alloc, &[call])?;
    let mut out = MemorySink::new(alloc, 10, 65_536, fails)?;
    let status = plays_into(rt, alloc, &mut out, b"write fault\n")?;
    assert_eq!(rt; status, Status::WriteFault);
    assert!(rt; TEXT.starts_with(out.taken()));
    assert_eq!(rt;
        out.taken().len(),
        (call as usize).wrapping_sub(1).wrapping_mul(10)
    );
    Ok(())
}

#[test]
fn each_write_fails(rt: HostRuntime) -> Result<(), Fail> {
    for call in 1..=9u32 {
        ends_at_write(&rt, rt.alloc(), call)?;
    }
    Ok(())
}

// The calls that come after the last one don't fail.
#[test]
fn no_write_is_left_to_fail(rt: HostRuntime) -> Result<(), Fail> {
    let alloc = rt.alloc();
    let fails = Vec::from_slice(alloc, &[10u32])?;
    let mut out = MemorySink::new(alloc, 10, 65_536, fails)?;
    let status = plays_into(&rt, alloc, &mut out, b"")?;
    assert_eq!(rt; status, Status::Done);
    assert!(rt; out.taken() == TEXT);
    Ok(())
}

#[test]
fn there_is_room_for_ten_bytes(rt: HostRuntime) -> Result<(), Fail> {
    let alloc = rt.alloc();
    let mut out = MemorySink::new(alloc, 100, 10, Vec::new(alloc))?;
    let status = plays_into(&rt, alloc, &mut out, b"write fault\n")?;
    assert_eq!(rt; status, Status::WriteFault);
    assert!(rt; out.taken() == b"commit 1 s".as_slice());
    Ok(())
}

/// The status of a script, and of these words, where nothing can be said of it.
fn unsaid<R: Abort + Threads + Sync>(
    rt: &R,
    alloc: Global,
    words: &Words,
    source: &mut MemorySource,
    out: &mut MemorySink,
) -> Result<Status, Fail> {
    let fails = Vec::from_slice(alloc, &[1u32])?;
    let mut err = MemorySink::new(alloc, 100, 65_536, fails)?;
    let status = replay_main(rt, alloc, words, source, out, &mut err, &OpenGate);
    assert!(rt; err.taken().is_empty());
    Ok(status)
}

#[test]
fn a_text_is_refused_unsaid(rt: HostRuntime) -> Result<(), Fail> {
    let alloc = rt.alloc();
    let mut out = sink(alloc)?;
    let mut none = source(alloc, b"ro")?;
    let status = unsaid(&rt, alloc, &replay(alloc)?, &mut none, &mut out)?;
    assert_eq!(rt; status, Status::Script);
    let mut played = source(alloc, SCRIPT)?;
    let status = unsaid(&rt, alloc, &Words::new(alloc), &mut played, &mut out)?;
    assert_eq!(rt; status, Status::Usage);
    assert!(rt; out.taken().is_empty());
    Ok(())
}

#[test]
fn a_device_fails_unsaid(rt: HostRuntime) -> Result<(), Fail> {
    let alloc = rt.alloc();
    let words = replay(alloc)?;
    let mut out = MemorySink::new(alloc, 100, 10, Vec::new(alloc))?;
    let fails = Vec::from_slice(alloc, &[1u32])?;
    let mut failing = MemorySource::new(Vec::from_slice(alloc, SCRIPT)?, 100, fails);
    let status = unsaid(&rt, alloc, &words, &mut failing, &mut out)?;
    assert_eq!(rt; status, Status::ReadFault);
    let mut played = source(alloc, SCRIPT)?;
    let status = unsaid(&rt, alloc, &words, &mut played, &mut out)?;
    assert_eq!(rt; status, Status::WriteFault);
    Ok(())
}

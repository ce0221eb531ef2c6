// Sessions in threads of their own.
use crate::tests::{FIRST, prints_by, sink, source, words};
use sg_command::Words;
use sg_program::{Status, spatial_main};
use sg_refine::{Gate, OpenGate};
use std::alloc::Global;
use std::process::Abort;
use std::sync::Wait;
use std::sync::atomic::{AtomicU64, Ordering};
use std::test::Fail;
use std::thread::Threads;

/// Holds the first pass until a third one comes, for a number of looks at most.
#[derive(Drop)]
struct Third {
    passes: AtomicU64,
    met: AtomicU64,
}

impl Gate for Third {
    fn pass(&self, _piece: u32) {
        if self.passes.fetch_add(1, Ordering::SeqCst) > 0 {
            return;
        }
        for _ in 0..1_000_000_000u64 {
            if self.passes.load(Ordering::SeqCst) > 2 {
                self.met.store(1, Ordering::SeqCst);
                return;
            }
        }
    }
}

/// What is printed of the first script with its turns.
const FIRST_TURNS: &[u8] =
    b"commit 1 session 1 transaction 1\n  inserted\n  keys 1\nrows 1\n  1 POINT (3 4)\nschedule 1 1 1 1 1 1 1 1 1\n";

/// Two sessions with two equal queries each, and one row that they refine.
const REFINED_TWICE: &[u8] = b"row 1 POINT (5 5)\n\
session 1\n\
begin\n\
select intersects POINT (5 5)\n\
select intersects POINT (5 5)\n\
commit\n\
session 2\n\
begin\n\
select intersects POINT (5 5)\n\
select intersects POINT (5 5)\n\
commit\n";

/// What is printed of the script by the words; the call ends well and says nothing.
fn told<R: Abort + Threads + Wait + Sync, G: Gate + Sync>(
    rt: &R,
    alloc: Global,
    words: &Words,
    script: &[u8],
    gate: &G,
) -> Result<Vec<u8>, Fail> {
    let mut script = source(alloc, script)?;
    let mut out = sink(alloc)?;
    let mut err = sink(alloc)?;
    let status = spatial_main(rt, alloc, words, &mut script, &mut out, &mut err, gate);
    assert_eq!(rt; status, Status::Done);
    assert!(rt; err.taken().is_empty());
    Ok(Vec::from_slice(alloc, out.taken())?)
}

#[test]
fn threads_of_one_session(rt: HostRuntime) -> Result<(), Fail> {
    prints_by(
        &rt,
        rt.alloc(),
        &[b"threads", b"--trace"],
        FIRST,
        FIRST_TURNS,
    )
}

/// Where the session stands in the line of 16 turns, of sessions 1 and 2, that ends the text.
fn places_of(alloc: Global, text: &[u8], session: u8) -> Result<Vec<usize>, Fail> {
    let mut places = Vec::new(alloc);
    if text.len() < 41 {
        return Err(Fail::from("no schedule"));
    }
    let line = &text[text.len() - 41..];
    if !line.starts_with(b"schedule ") {
        return Err(Fail::from("no schedule"));
    }
    for place in 9..line.len() {
        if line[place] == session {
            places.push(place)?;
        }
    }
    Ok(places)
}

#[test]
fn gate_two_sessions(rt: HostRuntime) -> Result<(), Fail> {
    let alloc = rt.alloc();
    let gate = Third {
        passes: AtomicU64::new(0),
        met: AtomicU64::new(0),
    };
    let words = words(alloc, &[b"threads", b"--trace"])?;
    let text = told(&rt, alloc, &words, REFINED_TWICE, &gate)?;
    assert_eq!(rt; gate.met.load(Ordering::SeqCst), 1);
    let first = places_of(alloc, text.as_slice(), b'1')?;
    let second = places_of(alloc, text.as_slice(), b'2')?;
    assert_eq!(rt; first.len(), 8);
    assert_eq!(rt; second.len(), 8);
    // The second asking of one session stands before the first answer of the other.
    assert!(rt; first[5] < second[4] || second[5] < first[4]);
    Ok(())
}

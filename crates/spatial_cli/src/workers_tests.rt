// Queries that are refined by several workers.
use crate::tests::{put_turns, sink, source, words};
use sg_command::Words;
use sg_program::{Status, replay_main};
use sg_refine::{Gate, OpenGate};
use std::alloc::Global;
use std::process::Abort;
use std::sync::atomic::{AtomicU64, Ordering};
use std::test::Fail;
use std::thread::Threads;

/// Holds the first pass until a second one comes, for a number of looks at most.
#[derive(Drop)]
struct Meeting {
    passes: AtomicU64,
    met: AtomicU64,
}

impl Gate for Meeting {
    fn pass(&self, _piece: u32) {
        if self.passes.fetch_add(1, Ordering::SeqCst) > 0 {
            return;
        }
        for _ in 0..1_000_000_000u64 {
            if self.passes.load(Ordering::SeqCst) > 1 {
                self.met.store(1, Ordering::SeqCst);
                return;
            }
        }
    }
}

#[test]
fn gate_two_workers(rt: HostRuntime) -> Result<(), Fail> {
    let alloc = rt.alloc();
    let gate = Meeting {
        passes: AtomicU64::new(0),
        met: AtomicU64::new(0),
    };
    let mut script = source(
        alloc,
        b"row 1 POINT (1 1)\n\
          row 2 POINT (2 2)\n\
          session 1\n\
          begin\n\
          select intersects POINT (2 2)\n\
          commit\n",
    )?;
    let mut out = sink(alloc)?;
    let mut err = sink(alloc)?;
    let words = words(alloc, &[b"replay", b"--workers", b"2"])?;
    let status = replay_main(&rt, alloc, &words, &mut script, &mut out, &mut err, &gate);
    assert_eq!(rt; status, Status::Done);
    assert_eq!(rt; gate.met.load(Ordering::SeqCst), 1);
    assert_eq!(rt; gate.passes.load(Ordering::SeqCst), 2);
    assert!(rt;
        out.taken()
            == b"commit 1 session 1 transaction 1\n  keys 2\nrows 2\n  1 POINT (1 1)\n  2 POINT (2 2)\n".as_slice()
    );
    Ok(())
}

/// A city of blocks, 20 beside each other: a line for each, from the first to the last, that begins with these words.
fn put_blocks(alloc: Global, text: &mut Vec<u8>, words: &str, last: u32) -> Result<(), Fail> {
    for key in 1..=last {
        let left = 50 * ((key - 1) % 20) + 5;
        let low = 40 * ((key - 1) / 20 % 10) + 5;
        let (right, high) = (left + 40, low + 30);
        let line = format!(in alloc;
            "{words}{key} POLYGON (({left} {low}, {right} {low}, {right} {high}, {left} {high}, {left} {low}))\n"
        )?;
        text.extend_from_slice(line.as_bytes())?;
    }
    Ok(())
}

/// The script of a city map, and what it prints, by so many workers.
fn prints_city<R: Abort + Threads + Sync>(
    rt: &R,
    alloc: Global,
    words: &Words,
) -> Result<(), Fail> {
    let mut script = Vec::from_slice(alloc, b"grid 0 0 1000 400\n")?;
    put_blocks(alloc, &mut script, "row ", 200)?;
    script.extend_from_slice(
        b"session 1\nbegin\nselect intersects POLYGON ((0 0, 120 0, 120 60, 0 60, 0 0))\ncommit\nsession 2\nbegin\ninsert 201 POINT (500 200)\ncommit\nsession 3\nbegin\nselect distance <= 10 POINT (50 20)\ndelete 200\ncommit\n",
    )?;
    put_turns(&mut script, b"1", 4_000)?;
    put_turns(&mut script, b"2", 100)?;
    let mut text = Vec::from_slice(
        alloc,
        b"commit 1 session 1 transaction 1\n  keys 1 2 3 21 22 23\ncommit 2 session 2 transaction 1\n  inserted\ncommit 3 session 3 transaction 1\n  keys 1 2\n  done\nrows 200\n",
    )?;
    put_blocks(alloc, &mut text, "  ", 199)?;
    text.extend_from_slice(b"  201 POINT (500 200)\n")?;
    let mut city = source(alloc, script.as_slice())?;
    let mut out = sink(alloc)?;
    let mut err = sink(alloc)?;
    let status = replay_main(rt, alloc, words, &mut city, &mut out, &mut err, &OpenGate);
    assert_eq!(rt; status, Status::Done);
    assert!(rt; out.taken() == text.as_slice());
    Ok(())
}

#[test]
fn a_city_by_one_worker(rt: HostRuntime) -> Result<(), Fail> {
    prints_city(&rt, rt.alloc(), &words(rt.alloc(), &[b"replay"])?)
}

#[test]
fn a_city_by_four_workers(rt: HostRuntime) -> Result<(), Fail> {
    prints_city(
        &rt,
        rt.alloc(),
        &words(rt.alloc(), &[b"replay", b"--workers", b"4"])?,
    )
}

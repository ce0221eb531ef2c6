use crate::threads::run_threads;
use sg_celltest::CellTest;
use sg_modes::Session;
use sg_refine::{Gate, OpenGate};
use sg_relate::Relate;
use sg_run::{Outcome, Run};
use sg_script::{Script, read_script};
use sg_shape::{Judge, Matrix, Shape};
use std::alloc::{AllocError, Global};
use std::sync::Wait;
use std::sync::atomic::{AtomicU64, Ordering};
use std::test::Fail;
use std::thread::Threads;

/// Holds the first pass until a third one comes, for a number of looks at most.
#[derive(Drop)]
struct Third {
    passes: AtomicU64,
    met: AtomicU64,
}

impl Gate for Third {
    fn pass(&self, _piece: u32) {
        if self.passes.fetch_add(1, Ordering::SeqCst) > 0 {
            return;
        }
        for _ in 0..1_000_000_000u64 {
            if self.passes.load(Ordering::SeqCst) > 2 {
                self.met.store(1, Ordering::SeqCst);
                return;
            }
        }
    }
}

/// Two sessions with two equal queries each, and one row that they refine.
const REFINED_TWICE: &[u8] =
    b"row 1 POINT (5 5)\nsession 1\nbegin\nselect intersects POINT (5 5)\nselect intersects POINT (5 5)\ncommit\nsession 2\nbegin\nselect intersects POINT (5 5)\nselect intersects POINT (5 5)\ncommit\n";

/// Three sessions whose updates lock three rows in a ring.
const RING: &[u8] =
    b"row 1 POINT (0 0)\nrow 2 POINT (0 0)\nrow 3 POINT (0 0)\nsession 1\nbegin\nupdate 1 POINT (10 10)\nupdate 2 POINT (11 11)\ncommit\nsession 2\nbegin\nupdate 2 POINT (20 20)\nupdate 3 POINT (21 21)\ncommit\nsession 3\nbegin\nupdate 3 POINT (30 30)\nupdate 1 POINT (31 31)\ncommit\nbegin\nget 1\nrollback\n";

/// Has no memory for a matrix.
#[derive(Clone, Copy)]
struct Refusing;

impl Judge for Refusing {
    fn relate(&self, _alloc: Global, _a: &Shape, _b: &Shape) -> Result<Matrix, AllocError> {
        Err(AllocError)
    }

    fn near(&self, a: &Shape, b: &Shape, d: u32, strict: bool) -> bool {
        Relate.near(a, b, d, strict)
    }
}

fn script_in(alloc: Global, text: &[u8]) -> Result<Script, Fail> {
    if text.len() > 67_108_864 {
        return Err(Fail::from("too long"));
    }
    match read_script(alloc, text) {
        Ok(script) => Ok(script),
        Err(_) => Err(Fail::from("no script")),
    }
}

/// A run of the sessions whose locks form a ring, by threads, each refined by two workers.
fn ring<R: Threads + Wait + Sync>(rt: &R, alloc: Global) -> Result<Run<Relate, CellTest>, Fail> {
    let run = Run::open(rt, alloc, Relate, CellTest, script_in(alloc, RING)?)?;
    Ok(run_threads(rt, alloc, run, 2, &OpenGate)?)
}

#[test]
fn a_session_goes_on_while_another_is_refined(rt: HostRuntime) -> Result<(), Fail> {
    let alloc = rt.alloc();
    let gate = Third {
        passes: AtomicU64::new(0),
        met: AtomicU64::new(0),
    };
    let run = Run::open(
        &rt,
        alloc,
        Relate,
        CellTest,
        script_in(alloc, REFINED_TWICE)?,
    )?;
    let run = run_threads(&rt, alloc, run, 1, &gate)?;
    assert_eq!(rt; gate.met.load(Ordering::SeqCst), 1);
    assert_eq!(rt; gate.passes.load(Ordering::SeqCst), 4);
    assert!(rt; run.all_ended());
    assert_eq!(rt; run.script().sessions().len(), 2);
    assert_eq!(rt; run.engine().trace().len(), 16);
    Ok(())
}

#[test]
fn sessions_that_wait(rt: HostRuntime) -> Result<(), Fail> {
    for _ in 0..20u32 {
        let run = ring(&rt, rt.alloc())?;
        assert!(rt; run.all_ended());
    }
    Ok(())
}

/// Whether the first transaction of the session ended for want of memory.
fn had_no_memory(run: &Run<Refusing, CellTest>, number: u8) -> bool {
    match Session::new(number) {
        None => false,
        Some(s) => matches!(run.outcome(s, 1), Some(Outcome::NoMemory)),
    }
}

#[test]
fn without_memory_to_refine(rt: HostRuntime) -> Result<(), Fail> {
    let alloc = rt.alloc();
    let run = Run::open(
        &rt,
        alloc,
        Refusing,
        CellTest,
        script_in(alloc, REFINED_TWICE)?,
    )?;
    let run = run_threads(&rt, alloc, run, 2, &OpenGate)?;
    assert!(rt; run.all_ended());
    assert!(rt; had_no_memory(&run, 1));
    assert!(rt; had_no_memory(&run, 2));
    Ok(())
}

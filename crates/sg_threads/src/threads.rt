ghost use Rattle.std.specs.Prelude.{◌≡◌, ◌≤◌, IsOk, IfOk};
ghost use Rattle.sg_threads.specs.Runs.{IsRunIn, AllHaveEnded};

use crate::locked::{Locked, Named};
use sg_driver::{Workers, finish};
use sg_modes::Session;
use sg_refine::{Gate, RefineJob, refine};
use sg_run::{Run, Turn};
use sg_shape::{CellJudge, Judge};
use std::alloc::{AllocError, Global};
use std::marker::Brand;
use std::sync::{Condvar, Mutex, Wait};
use std::thread;
use std::thread::Threads;

/// Runs each session in a thread of its own until all have ended, and hands the run back. The threads share the run
/// under a lock, and make one turn at a time. What a turn gives out is refined outside the lock, by 1 to 64 workers, of
/// which each passes the gate before each piece. A session that waits sleeps until a transaction has ended. Where there
/// is no memory for a thread its session is left, and what is left is done here at the end, by rounds of turns. The
/// order of turns in the script isn't used. No call in it wants memory that it can't do without: it answers `Ok`.
pub fn run_threads<
    R: Threads + Wait + Sync,
    J: Judge + Copy + Send + Sync,
    C: CellJudge + Copy + Send + Sync,
    G: Gate + Sync,
>(rt: &R, alloc: Global, run: Run<J, C>, workers: u32, gate: &G) -> Result<Run<J, C>, AllocError>
    requires some { 1 ≤ workers }
    requires few { workers ≤ 64 }
    ensures ok { IsOk result }
    ensures run { IfOk result (IsRunIn run.script) }
    ensures ended { IfOk result AllHaveEnded }
{
    let workers = Workers {
        rt,
        count: workers,
        gate,
    };
    Ok(run_named::<Brand, R, J, C, G>(alloc, &workers, run))
}

/// The same for a run whose script is the named one.
#[tactic(auto, using(crate::proofs::Finished::run_in))]
fn run_named<
    N: Named + Send + Sync,
    R: Threads + Wait + Sync,
    J: Judge + Copy + Send + Sync,
    C: CellJudge + Copy + Send + Sync,
    G: Gate + Sync,
>(alloc: Global, workers: &Workers<R, G>, run: Run<J, C>) -> Run<J, C>
    requires { run.script ≡ N.plan }
    ensures run { IsRunIn N.plan result }
    ensures ended { AllHaveEnded result }
{
    let judge = run.engine().judge();
    let lock: Mutex<Locked<N, J, C>> = Mutex::new(Locked::new(run));
    let ended = Condvar::new();
    start_all(alloc, workers, judge, &lock, &ended);
    let mut run = lock.into_inner().into_run();
    finish(alloc, workers, &mut run);
    run
}

/// A thread for each session that hasn't ended, where one can be made.
fn start_all<
    N: Named + Send + Sync,
    R: Threads + Wait + Sync,
    J: Judge + Copy + Send + Sync,
    C: CellJudge + Copy + Send + Sync,
    G: Gate + Sync,
>(
    alloc: Global,
    workers: &Workers<R, G>,
    judge: J,
    lock: &Mutex<Locked<N, J, C>>,
    ended: &Condvar,
) {
    let rt = workers.rt;
    thread::scope(thread::scope_env(), rt, |scope| {
        for number in 1..=64_u8 {
            let Some(s) = Session::new(number) else {
                continue;
            };
            if !lock.lock(rt).ended(s) {
                let _ = scope.spawn(move || go_on(alloc, workers, judge, lock, ended, s));
            }
        }
    });
}

/// What a session's thread does until the session has ended: one turn at a time under the lock. Where its wait stands
/// it sleeps until an end was signalled.
fn go_on<
    N: Named,
    R: Threads + Wait + Sync,
    J: Judge + Copy + Send + Sync,
    C: CellJudge + Copy + Send + Sync,
    G: Gate + Sync,
>(
    alloc: Global,
    workers: &Workers<R, G>,
    judge: J,
    lock: &Mutex<Locked<N, J, C>>,
    ended: &Condvar,
    s: Session,
) {
    let rt = workers.rt;
    for _ in rt.forever() {
        let mut held = lock.lock(rt);
        match held.turn(s) {
            Turn::Labelled => {
                if held.closes() {
                    ended.notify_all();
                }
            }
            Turn::Waits => drop(ended.wait(rt, held)),
            Turn::Unbegun => {}
            Turn::Ended => return,
            Turn::Job(job) => {
                drop(held);
                refine_outside(alloc, workers, judge, lock, ended, s, job);
            }
        }
    }
}

/// Refines a job while the lock is free, and hands in what it came to. One that isn't waited for any more is dropped.
fn refine_outside<
    N: Named,
    R: Threads + Wait + Sync,
    J: Judge + Copy + Send + Sync,
    C: CellJudge + Copy + Send + Sync,
    G: Gate + Sync,
>(
    alloc: Global,
    workers: &Workers<R, G>,
    judge: J,
    lock: &Mutex<Locked<N, J, C>>,
    ended: &Condvar,
    s: Session,
    job: RefineJob,
) {
    let rt = workers.rt;
    match refine(rt, alloc, &judge, workers.count, workers.gate, job) {
        Ok(done) => {
            let _ = lock.lock(rt).hand_in(s, done);
        }
        Err(_) => {
            lock.lock(rt).hand_failed(s);
            ended.notify_all();
        }
    }
}

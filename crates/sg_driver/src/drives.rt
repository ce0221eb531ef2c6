ghost use Rattle.std.specs.Prelude.{◌≡◌, ◌≤◌, [], true, Some, slice_get};
ghost use Rattle.sg_script.specs.Plans.{numbers_of};
ghost use Rattle.sg_engine.specs.Shown.{is_open_in, job_in};
ghost use Rattle.sg_run.specs.Runs.{IsRun};
ghost use Rattle.sg_run.specs.Turns.{IsFree, HasGoneOn};
ghost use Rattle.sg_driver.specs.Drives.{HasMoved, Leads, after_turns, IsDriven, IsFinished};

use sg_modes::Session;
use sg_refine::{Gate, RefineJob, refine};
use sg_run::{Run, Turn};
use sg_shape::{CellJudge, Judge};
use std::alloc::Global;
use std::thread::Threads;

/// Who refines the candidates of a query.
#[derive(Drop)]
pub struct Workers<'a, R, G> {
    /// The runtime whose threads they are.
    pub rt: &'a R,
    /// How many there are: 1 to 64.
    pub count: u32,
    /// What each of them passes before each piece.
    pub gate: &'a G,
    ghost some: { 1 ≤ count },
    ghost few: { count ≤ 64 },
}

/// Drives a run to its end: the turns of the script's order, one after another, and then rounds in which each session
/// of the script has one turn, by rising number, until all have ended. What a turn gives out to be refined the workers
/// refine, and the turn goes on.
#[tactic(auto, using(crate::proofs::Loops::driven))]
pub fn drive<
    R: Threads + Sync,
    J: Judge + Copy + Send + Sync,
    C: CellJudge + Copy + Send + Sync,
    G: Gate + Sync,
>(alloc: Global, workers: &Workers<R, G>, run: &mut Run<J, C>)
    ensures { IsDriven run.old run.new }
{
    drive_order(alloc, workers, run);
    finish(alloc, workers, run);
}

/// Finishes a run, whatever has happened in it: rounds in which each session of the script has one turn, by rising
/// number, until all have ended.
pub fn finish<
    R: Threads + Sync,
    J: Judge + Copy + Send + Sync,
    C: CellJudge + Copy + Send + Sync,
    G: Gate + Sync,
>(alloc: Global, workers: &Workers<R, G>, run: &mut Run<J, C>)
    ensures { IsFinished run.old run.new }
{
    'rounds: while !run.all_ended() {
        drive_round(alloc, workers, run);
    }
}

/// The turns of the script's order.
fn drive_order<
    R: Threads + Sync,
    J: Judge + Copy + Send + Sync,
    C: CellJudge + Copy + Send + Sync,
    G: Gate + Sync,
>(alloc: Global, workers: &Workers<R, G>, run: &mut Run<J, C>)
    ensures { Leads (after_turns run.old.script.order []) run.old run.new }
{
    let count = run.script().order().len();
    for place in 0..count {
        if let Some(s) = run.script().order().at(place) {
            drive_turn(alloc, workers, run, s);
        }
    }
}

/// One turn of each session of the script, by rising number.
fn drive_round<
    R: Threads + Sync,
    J: Judge + Copy + Send + Sync,
    C: CellJudge + Copy + Send + Sync,
    G: Gate + Sync,
>(alloc: Global, workers: &Workers<R, G>, run: &mut Run<J, C>)
    ensures leads { Leads (after_turns (numbers_of run.old.script.sessions) []) run.old run.new }
    ensures legal { IsRun run.old }
{
    let count = run.script().sessions().len();
    for place in 0..count {
        if let Some(s) = member(run, place) {
            drive_turn(alloc, workers, run, s);
        }
    }
}

/// The session of the script at a place, counted from 0: `None` exactly past the end.
fn member<J: Judge + Copy + Send + Sync, C: CellJudge + Copy + Send + Sync>(
    run: &Run<J, C>,
    place: usize,
) -> Option<Session>
    ensures { result ≡ slice_get (numbers_of run.now.script.sessions) place }
{
    match run.script().sessions().get(place) {
        None => None,
        Some(found) => Some(found.session),
    }
}

/// One turn of the session. Where it gives out a job, this is refined, its result handed in, and the turn goes on;
/// where there is no memory to refine it, the session's transaction is rolled back.
fn drive_turn<
    R: Threads + Sync,
    J: Judge + Copy + Send + Sync,
    C: CellJudge + Copy + Send + Sync,
    G: Gate + Sync,
>(alloc: Global, workers: &Workers<R, G>, run: &mut Run<J, C>, s: Session)
    ensures { HasMoved s run.old run.new }
{
    match run.turn(s) {
        Turn::Job(job) => refine_turn(alloc, workers, run, s, job),
        _ => {}
    }
}

/// Refines the job that the session's turn gave out, and goes on with the turn. The run waits for exactly this job, so
/// its result is never refused.
fn refine_turn<
    R: Threads + Sync,
    J: Judge + Copy + Send + Sync,
    C: CellJudge + Copy + Send + Sync,
    G: Gate + Sync,
>(alloc: Global, workers: &Workers<R, G>, run: &mut Run<J, C>, s: Session, job: RefineJob)
    requires free { IsFree run.old s }
    requires job { (job_in run.old.engine.jobs s).job ≡ Some job }
    requires open { is_open_in run.old.engine s ≡ true }
    ensures moved { HasGoneOn s run.old run.new }
    ensures legal { IsRun run.new }
{
    let judge = run.engine().judge();
    match refine(workers.rt, alloc, &judge, workers.count, workers.gate, job) {
        Err(_) => run.hand_failed(s),
        Ok(done) => match run.hand_in(s, done) {
            Err(_) => unreachable!(),
            Ok(()) => {
                run.turn(s);
            }
        },
    }
}

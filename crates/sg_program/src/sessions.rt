ghost use Rattle.std.specs.Prelude.{IfOk, Some};
ghost use Rattle.sg_command.specs.declared.forms.Form.TheVariants as forms;
ghost use Rattle.sg_threads.specs.Runs.{AllHaveEnded, IsRunIn};
ghost use Rattle.sg_program.specs.Calls.{device_of};
ghost use Rattle.sg_program.specs.Ends.{IsEnd};
ghost use Rattle.sg_program.specs.Threaded.{IsThreadText};

use crate::ends::{print, script_of};
use crate::status::Exit;
use sg_celltest::CellTest;
use sg_driver::Workers;
use sg_io::{Sink, Source};
use sg_refine::Gate;
use sg_relate::Relate;
use sg_report::report;
use sg_run::Run;
use sg_script::Script;
use sg_threads::run_threads;
use std::alloc::{AllocError, Global};
use std::sync::Wait;
use std::thread::Threads;

/// Runs each session of the script that is left of the source in a thread of its own until all have ended, and prints
/// what came of it, with the labels of the trace and the sessions of its turns where they are asked for.
pub(crate) fn run_sessions<R: Threads + Wait + Sync, S: Source, K: Sink, G: Gate + Sync>(
    workers: &Workers<R, G>,
    labels: bool,
    trace: bool,
    alloc: Global,
    source: &mut S,
    out: &mut K,
) -> Exit
    ensures { IsEnd (Some (forms.Threads workers.now.count labels trace)) (device_of S.left S.faults source.old source.new) (device_of K.taken K.faults out.old out.new) result }
{
    let script = match script_of(alloc, source) {
        Ok(script) => script,
        Err(end) => return end,
    };
    match threaded(workers, labels, trace, alloc, script) {
        Ok(text) => print(out, text.as_slice()),
        Err(AllocError) => Exit::OutOfMemory,
    }
}

/// The text of a run of the script by the threads of its sessions, with its labels and its turns where they are asked
/// for. `AllocError` is want of memory: to open the run, or to tell it.
fn threaded<R: Threads + Wait + Sync, G: Gate + Sync>(
    workers: &Workers<R, G>,
    labels: bool,
    trace: bool,
    alloc: Global,
    script: Script,
) -> Result<Vec<u8>, AllocError>
    ensures { IfOk result (λ text. IsThreadText script labels trace text.items) }
{
    let run = ended_run(workers, alloc, script)?;
    report(alloc, &run, labels, trace)
}

/// A run of the script by the threads of its sessions, which have all ended. `AllocError` is want of memory to open it.
fn ended_run<R: Threads + Wait + Sync, G: Gate + Sync>(
    workers: &Workers<R, G>,
    alloc: Global,
    script: Script,
) -> Result<Run<Relate, CellTest>, AllocError>
    ensures run { IfOk result (IsRunIn script) }
    ensures ended { IfOk result AllHaveEnded }
{
    let run = Run::open(workers.rt, alloc, Relate, CellTest, script)?;
    run_threads(workers.rt, alloc, run, workers.count, workers.gate)
}

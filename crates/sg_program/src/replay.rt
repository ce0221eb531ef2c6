ghost use Rattle.std.specs.Prelude.{IfOk, Some};
ghost use Rattle.sg_command.specs.declared.forms.Form.TheVariants as forms;
ghost use Rattle.sg_command.specs.Words.{form_of};
ghost use Rattle.sg_program.specs.Asked.{as_replay};
ghost use Rattle.sg_program.specs.Calls.{IsCall, device_of};
ghost use Rattle.sg_program.specs.Ends.{IsEnd};
ghost use Rattle.sg_program.specs.Runs.{IsRunText};

use crate::ends::{print, say, script_of};
use crate::status::{Exit, Status};
use sg_celltest::CellTest;
use sg_command::{Form, Words};
use sg_driver::{Workers, drive};
use sg_io::{Sink, Source};
use sg_refine::Gate;
use sg_relate::Relate;
use sg_report::report;
use sg_run::Run;
use sg_script::Script;
use std::alloc::{AllocError, Global};
use std::thread::Threads;

/// Reads a script, drives a run of it to its end, and prints what came of it: the commits with their answers, the
/// other transactions, and the rows that are left. What went wrong is told on `err`; a failure there changes nothing.
/// Words that ask for something else are answered as those without a form.
pub fn replay_main<R: Threads + Sync, S: Source, K: Sink, E: Sink, G: Gate + Sync>(
    rt: &R,
    alloc: Global,
    words: &Words,
    source: &mut S,
    out: &mut K,
    err: &mut E,
    gate: &G,
) -> Status
    ensures { IsCall (as_replay (form_of words.now)) (device_of S.left S.faults source.old source.new) (device_of K.taken K.faults out.old out.new) (device_of E.taken E.faults err.old err.new) result }
{
    let end = replay_asked(rt, alloc, words, source, out, gate);
    say(err, end.message());
    end.status()
}

/// Replays the script that is left of the source, if the words ask for it.
fn replay_asked<R: Threads + Sync, S: Source, K: Sink, G: Gate + Sync>(
    rt: &R,
    alloc: Global,
    words: &Words,
    source: &mut S,
    out: &mut K,
    gate: &G,
) -> Exit
    ensures { IsEnd (as_replay (form_of words.now)) (device_of S.left S.faults source.old source.new) (device_of K.taken K.faults out.old out.new) result }
{
    match words.form(alloc) {
        Ok(
            Some(
                Form::Replay {
                    workers: count,
                    labels,
                },
            ),
        ) => {
            let workers = Workers { rt, count, gate };
            replay(&workers, labels, alloc, source, out)
        }
        Ok(_) => Exit::Usage,
        Err(AllocError) => Exit::OutOfMemory,
    }
}

/// Replays the script that is left of the source, its candidates refined by the workers.
pub(crate) fn replay<R: Threads + Sync, S: Source, K: Sink, G: Gate + Sync>(
    workers: &Workers<R, G>,
    labels: bool,
    alloc: Global,
    source: &mut S,
    out: &mut K,
) -> Exit
    ensures { IsEnd (Some (forms.Replay workers.now.count labels)) (device_of S.left S.faults source.old source.new) (device_of K.taken K.faults out.old out.new) result }
{
    let script = match script_of(alloc, source) {
        Ok(script) => script,
        Err(end) => return end,
    };
    match played(workers, labels, alloc, script) {
        Ok(text) => print(out, text.as_slice()),
        Err(AllocError) => Exit::OutOfMemory,
    }
}

/// The text of a run of the script, driven to its end, with its labels where they are asked for. `AllocError` is want of
/// memory: to open the run, or to tell it.
fn played<R: Threads + Sync, G: Gate + Sync>(
    workers: &Workers<R, G>,
    labels: bool,
    alloc: Global,
    script: Script,
) -> Result<Vec<u8>, AllocError>
    ensures { IfOk result (λ text. IsRunText script labels text.items) }
{
    let mut run = Run::open(workers.rt, alloc, Relate, CellTest, script)?;
    drive(alloc, workers, &mut run);
    report(alloc, &run, labels, false)
}

ghost use Rattle.std.specs.Prelude.{◌≡◌, ◌≤◌, IfOk, Some};
ghost use Rattle.sg_command.specs.declared.forms.Form.TheVariants as forms;
ghost use Rattle.sg_command.specs.Words.{form_of};
ghost use Rattle.sg_program.specs.Asked.{as_make};
ghost use Rattle.sg_program.specs.Calls.{Device, IsCall, device_of};
ghost use Rattle.sg_program.specs.Ends.{EndsAs};
ghost use Rattle.sg_program.specs.Makes.{IsMadeText};

use crate::ends::{print, say};
use crate::status::{Exit, Status};
use sg_celltest::CellTest;
use sg_command::{Form, Words};
use sg_driver::{Workers, drive};
use sg_io::{Sink, Source};
use sg_refine::Gate;
use sg_relate::Relate;
use sg_report::summary;
use sg_run::Run;
use sg_script::write_script;
use sg_workload::make_script;
use std::alloc::{AllocError, Global};
use std::thread::Threads;

/// Makes the script of a seed, drives a run of it with one worker to its end, and prints the text of the script and the
/// line that sums the run up. The source isn't read. What went wrong is told on `err`; a failure there changes nothing.
/// Words that ask for something else are answered as those without a form.
pub fn make_main<R: Threads + Sync, S: Source, K: Sink, E: Sink, G: Gate + Sync>(
    rt: &R,
    alloc: Global,
    words: &Words,
    source: &mut S,
    out: &mut K,
    err: &mut E,
    gate: &G,
) -> Status
    ensures { IsCall (as_make (form_of words.now)) (device_of S.left S.faults source.old source.new) (device_of K.taken K.faults out.old out.new) (device_of E.taken E.faults err.old err.new) result }
{
    let _source = source;
    let end = make_asked(rt, alloc, words, out, gate);
    say(err, end.message());
    end.status()
}

/// Makes the script, if the words ask for it.
fn make_asked<R: Threads + Sync, K: Sink, G: Gate + Sync>(
    rt: &R,
    alloc: Global,
    words: &Words,
    out: &mut K,
    gate: &G,
) -> Exit
    ensures { (source : Device) → EndsAs (as_make (form_of words.now)) source (device_of K.taken K.faults out.old out.new) result }
{
    match words.form(alloc) {
        Ok(
            Some(
                Form::Make {
                    seed,
                    rows,
                    sessions,
                },
            ),
        ) => {
            let workers = Workers { rt, count: 1, gate };
            make(&workers, alloc, seed, rows, sessions, out)
        }
        Ok(_) => Exit::Usage,
        Err(AllocError) => Exit::OutOfMemory,
    }
}

/// Prints the script of the seed, and the line that sums up a run of it.
pub(crate) fn make<R: Threads + Sync, K: Sink, G: Gate + Sync>(
    workers: &Workers<R, G>,
    alloc: Global,
    seed: u64,
    rows: u32,
    sessions: u8,
    out: &mut K,
) -> Exit
    requires some_rows { 1 ≤ rows }
    requires most_rows { rows ≤ 5000 }
    requires some_sessions { 1 ≤ sessions }
    requires most_sessions { sessions ≤ 64 }
    ensures { (source : Device) → EndsAs (Some (forms.Make seed rows sessions)) source (device_of K.taken K.faults out.old out.new) result }
{
    match made(workers, alloc, seed, rows, sessions) {
        Ok(text) => print(out, text.as_slice()),
        Err(AllocError) => Exit::OutOfMemory,
    }
}

/// The text of the script of a seed, and the line that sums up a run of it. `AllocError` is want of memory: for the
/// script, for its text, to open the run, or to sum it up.
fn made<R: Threads + Sync, G: Gate + Sync>(
    workers: &Workers<R, G>,
    alloc: Global,
    seed: u64,
    rows: u32,
    sessions: u8,
) -> Result<Vec<u8>, AllocError>
    requires some_rows { 1 ≤ rows }
    requires most_rows { rows ≤ 5000 }
    requires some_sessions { 1 ≤ sessions }
    requires most_sessions { sessions ≤ 64 }
    ensures { IfOk result (λ text. IsMadeText seed rows sessions text.items) }
{
    let script = make_script(alloc, seed, rows, sessions)?;
    let mut text = write_script(alloc, &script)?;
    let mut run = Run::open(workers.rt, alloc, Relate, CellTest, script)?;
    drive(alloc, workers, &mut run);
    let line = summary(alloc, &run)?;
    text.extend_from_slice(line.as_slice())?;
    Ok(text)
}

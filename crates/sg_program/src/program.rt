ghost use Rattle.sg_command.specs.Words.{form_of};
ghost use Rattle.sg_program.specs.Calls.{IsCall, device_of};
ghost use Rattle.sg_program.specs.Ends.{IsEnd};

use crate::ends::say;
use crate::making::make;
use crate::replay::replay;
use crate::sessions::run_sessions;
use crate::status::{Exit, Status};
use sg_command::{Form, Words};
use sg_driver::Workers;
use sg_io::{Sink, Source};
use sg_refine::Gate;
use std::alloc::{AllocError, Global};
use std::sync::Wait;
use std::thread::Threads;

/// Does what the words ask for: replays a script, runs one by the threads of its sessions, or makes one. What went wrong
/// is told on `err`; a failure there changes nothing. Sessions wait for each other, so nothing says that the call
/// returns; its clauses hold where it does.
pub fn spatial_main<R: Threads + Wait + Sync, S: Source, K: Sink, E: Sink, G: Gate + Sync>(
    rt: &R,
    alloc: Global,
    words: &Words,
    source: &mut S,
    out: &mut K,
    err: &mut E,
    gate: &G,
) -> Status
    ensures { IsCall (form_of words.now) (device_of S.left S.faults source.old source.new) (device_of K.taken K.faults out.old out.new) (device_of E.taken E.faults err.old err.new) result }
{
    let end = answer(rt, alloc, words, source, out, gate);
    say(err, end.message());
    end.status()
}

/// Does what the words ask for.
fn answer<R: Threads + Wait + Sync, S: Source, K: Sink, G: Gate + Sync>(
    rt: &R,
    alloc: Global,
    words: &Words,
    source: &mut S,
    out: &mut K,
    gate: &G,
) -> Exit
    ensures { IsEnd (form_of words.now) (device_of S.left S.faults source.old source.new) (device_of K.taken K.faults out.old out.new) result }
{
    match words.form(alloc) {
        Ok(
            Some(
                Form::Make {
                    seed,
                    rows,
                    sessions,
                },
            ),
        ) => {
            let workers = Workers { rt, count: 1, gate };
            make(&workers, alloc, seed, rows, sessions, out)
        }
        Ok(
            Some(
                Form::Threads {
                    workers: count,
                    labels,
                    trace,
                },
            ),
        ) => {
            let workers = Workers { rt, count, gate };
            run_sessions(&workers, labels, trace, alloc, source, out)
        }
        Ok(
            Some(
                Form::Replay {
                    workers: count,
                    labels,
                },
            ),
        ) => {
            let workers = Workers { rt, count, gate };
            replay(&workers, labels, alloc, source, out)
        }
        Ok(None) => Exit::Usage,
        Err(AllocError) => Exit::OutOfMemory,
    }
}

ghost use Rattle.std.specs.Prelude.{◌≡◌, drop, map, IfOk};
ghost use Rattle.std.specs.String.{string_bytes};
ghost use Rattle.std.specs.Vec.Iter.{into_iter_items};
ghost use Rattle.sg_program.specs.Calls.{device_of};
ghost use Rattle.sg_program.specs.Processes.{IsProcess, words_in};

use crate::ends::say;
use crate::program::spatial_main;
use crate::status::{Exit, Status};
use sg_command::Words;
use sg_io::{Sink, Source};
use sg_refine::Gate;
use std::alloc::{AllocError, Global};
use std::env::Args;
use std::io;
use std::io::ErrorKind;
use std::sync::Wait;
use std::thread::Threads;

/// Does what the process's arguments ask for, by `spatial_main`, and answers the number that the process ends with. The
/// first argument is the program's name.
pub fn process_main<R: Threads + Wait + Sync, S: Source, K: Sink, E: Sink, G: Gate + Sync>(
    rt: &R,
    alloc: Global,
    args: io::Result<Args>,
    source: &mut S,
    out: &mut K,
    err: &mut E,
    gate: &G,
) -> u8
    ensures { IsProcess (words_in args) (device_of S.left S.faults source.old source.new) (device_of K.taken K.faults out.old out.new) (device_of E.taken E.faults err.old err.new) result }
{
    let status = match words_of(alloc, args) {
        Ok(words) => spatial_main(rt, alloc, &words, source, out, err, gate),
        Err(AllocError) => {
            say(err, Exit::OutOfMemory.message());
            Status::OutOfMemory
        }
    };
    status.number()
}

/// The words after the program's name. Where an argument isn't UTF-8 there is one empty word, which has no form.
/// `AllocError` is want of memory.
fn words_of(alloc: Global, args: io::Result<Args>) -> Result<Words, AllocError>
    ensures { IfOk result (λ words. words ≡ words_in args) }
{
    match args {
        Ok(args) => words_after_name(alloc, args),
        Err(error) => {
            if error.kind() == ErrorKind::OutOfMemory {
                return Err(AllocError);
            }
            let mut words = Words::new(alloc);
            words.push(Vec::new(alloc))?;
            Ok(words)
        }
    }
}

/// The arguments as words, but for the first of them.
fn words_after_name(alloc: Global, args: Args) -> Result<Words, AllocError>
    ensures { IfOk result (λ words. words ≡ map string_bytes (drop 1 (into_iter_items args))) }
{
    let mut args = args;
    let _name = args.next();
    let mut words = Words::new(alloc);
    for arg in args {
        words.push(arg.into_bytes())?;
    }
    Ok(words)
}

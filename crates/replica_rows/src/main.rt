//! A snapshot reader of a table with one session, shown: what it sees before and after it was told of one insertion, and
//! of a journal with changes of all kinds. Each line that is printed says what was seen. It ends with 1 where memory is
//! wanting or output fails, and with 2 where something else came than was to come.
#![tactic(auto)]

mod desks;
mod rows;
mod shown;
mod stops;
mod tables;

use sg_replica::Seen;
use std::alloc::Global;
use std::process::ExitCode;
use std::sync::Wait;
use std::thread::Threads;
use stops::Stop;

/// What was seen.
#[derive(Drop)]
struct AllSeen {
    one: Vec<Seen>,
    all: Vec<Seen>,
}

fn main(rt: HostRuntime) -> ExitCode {
    let shown = match look_at_all(&rt, rt.alloc()) {
        Ok(shown) => shown,
        Err(stop) => return ExitCode::from(stop.number()),
    };
    match print_all(&rt, &shown) {
        Ok(()) => ExitCode::SUCCESS,
        Err(stop) => ExitCode::from(stop.number()),
    }
}

fn look_at_all<R: Threads + Wait + Sync>(rt: &R, alloc: Global) -> Result<AllSeen, Stop> {
    Ok(AllSeen {
        one: rows::one_insert(rt, alloc)?,
        all: rows::all_changes(rt, alloc)?,
    })
}

fn print_all(rt: &HostRuntime, all: &AllSeen) -> Result<(), Stop> {
    for seen in all.one.iter() {
        shown::print(rt, seen)?;
    }
    for seen in all.all.iter() {
        shown::print(rt, seen)?;
    }
    Ok(())
}

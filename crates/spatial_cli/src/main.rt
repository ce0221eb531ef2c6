//! The program: a script of transactions on a table of shapes, run by its sessions in turns or in threads of their own,
//! and printed; or a script that is made from a number. What it prints of scripts is told by the cases of `tests/` at
//! the top of the repository; the tests here call it over objects in memory.
#![tactic(auto)]

#[cfg(test)]
mod fault_tests;
#[cfg(test)]
mod index_tests;
#[cfg(test)]
mod label_tests;
#[cfg(test)]
mod making_tests;
#[cfg(test)]
mod sessions_tests;
#[cfg(test)]
mod shape_tests;
#[cfg(test)]
mod statement_tests;
#[cfg(test)]
mod tests;
#[cfg(test)]
mod turns_tests;
#[cfg(test)]
mod workers_tests;

use sg_io::{StdSink, StdSource};
use sg_program::process_main;
use sg_refine::OpenGate;
use std::env;
use std::process::ExitCode;

fn main(rt: HostRuntime) -> ExitCode {
    let mut source = StdSource::new(rt.stdin());
    let mut out = StdSink::new(rt.stdout());
    let mut err = StdSink::new(rt.stderr());
    let number = process_main(
        &rt,
        rt.alloc(),
        env::args(&rt),
        &mut source,
        &mut out,
        &mut err,
        &OpenGate,
    );
    ExitCode::from(number)
}

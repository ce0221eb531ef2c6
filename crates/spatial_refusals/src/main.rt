//! The program of `spatial_cli` with one output, on which it tells too how it ended. It is stored with a text that is
//! refused. Texts that are cut or too long and crowds of sessions are cases of `tests/` at the top of the repository; the
//! tests here are of hostile use that no text shows: devices that fail at one call, arguments that are no texts, and
//! results that nobody waits for.
#![tactic(auto)]

#[cfg(test)]
mod device_tests;
#[cfg(test)]
mod process_tests;
#[cfg(test)]
mod stranger_tests;
#[cfg(test)]
mod tests;

use sg_io::{StdSink, StdSource};
use sg_program::process_main;
use sg_refine::OpenGate;
use std::env;
use std::process::ExitCode;

fn main(rt: HostRuntime) -> ExitCode {
    let mut source = StdSource::new(rt.stdin());
    let mut out = StdSink::new(rt.stdout());
    let mut messages = StdSink::new(rt.stdout());
    let number = process_main(
        &rt,
        rt.alloc(),
        env::args(&rt),
        &mut source,
        &mut out,
        &mut messages,
        &OpenGate,
    );
    ExitCode::from(number)
}

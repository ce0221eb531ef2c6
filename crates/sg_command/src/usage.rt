//! The usage of each command, and a parse by it.
ghost use Rattle.std.specs.Prelude.{◌≡◌, codes, map, option_map, IfOk};
ghost use Rattle.clap.specs.Words.{app_of, found_of, rows_of, with_rule};
ghost use Rattle.sg_command.specs.Usage.{IsTold, flag_rule, make_app, replay_app, rows_found, threads_app, workers_rule};

use clap::error::ErrorKind;
use clap::{Arg, ArgAction, ArgMatches, Command};
use std::alloc::{AllocError, Global};

/// `replay [--workers N] [--labels]`.
pub fn replay_usage<'a>(alloc: Global) -> Result<Command<'a>, AllocError>
    ensures { IfOk result (λ command. app_of command ≡ replay_app) }
{
    with_options(alloc, Command::new(alloc, "replay").disable_help_flag(true))
}

/// `threads [--workers N] [--labels] [--trace]`.
pub fn threads_usage<'a>(alloc: Global) -> Result<Command<'a>, AllocError>
    ensures { IfOk result (λ command. app_of command ≡ threads_app) }
{
    let trace = Arg::new(alloc, "trace")
        .long("trace")
        .action(ArgAction::SetTrue);
    let command = Command::new(alloc, "threads").disable_help_flag(true);
    with_options(alloc, command)?.arg(trace)
}

/// The command with `[--workers N] [--labels]`.
fn with_options<'a>(alloc: Global, command: Command<'a>) -> Result<Command<'a>, AllocError>
    ensures { IfOk result (λ more. app_of more ≡ with_rule (with_rule (app_of command.entry) workers_rule) (flag_rule (codes "labels"))) }
{
    let workers = Arg::new(alloc, "workers").long("workers");
    let labels = Arg::new(alloc, "labels")
        .long("labels")
        .action(ArgAction::SetTrue);
    command.arg(workers)?.arg(labels)
}

/// `make SEED ROWS SESSIONS`.
pub fn make_usage<'a>(alloc: Global) -> Result<Command<'a>, AllocError>
    ensures { IfOk result (λ command. app_of command ≡ make_app) }
{
    let command = Command::new(alloc, "make").disable_help_flag(true);
    let seed = Arg::new(alloc, "seed").required(true);
    let rows = Arg::new(alloc, "rows").required(true);
    let sessions = Arg::new(alloc, "sessions").required(true);
    command.arg(seed)?.arg(rows)?.arg(sessions)
}

/// What the command makes of the words after the first: `None` where it doesn't take them.
pub fn parsed<'a>(
    command: Command<'a>,
    words: &'a [&'a str],
) -> Result<Option<ArgMatches<'a>>, AllocError>
    requires { IsTold (app_of command) }
    ensures { IfOk result (λ found. option_map (λ matches. rows_of (found_of matches)) found ≡ rows_found (app_of command.entry) (map (λ word. word.now) words.now)) }
{
    match command.try_get_matches_from(words) {
        Ok(matches) => Ok(Some(matches)),
        Err(error) => match error.kind() {
            ErrorKind::OutOfMemory => Err(AllocError),
            _ => Ok(None),
        },
    }
}

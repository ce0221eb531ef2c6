ghost use Rattle.std.specs.Prelude.{◌≡◌, ◌≤◌, true, map, drop, codes, option_and_then, IfSome, IfOk};
ghost use Rattle.std.specs.List.{list_all};
ghost use Rattle.clap.specs.Words.{first_of, found_of, rows_of};
ghost use Rattle.sg_command.specs.Words.{IsForm, IsWithin, form_of, make_of, made_of, number_in, replay_of, threads_of, within};
ghost use Rattle.sg_command.specs.Usage.{may_stand, workers_said};

use crate::numbers::number_in;
use crate::usage::{make_usage, parsed, replay_usage, threads_usage};
use clap::ArgMatches;
use std::alloc::{AllocError, Global};

/// What the words ask for.
#[derive(Clone, Copy, Debug, PartialEq, Eq)]
pub enum Form {
    /// Read a script, run it in turns, and print what came of it. Candidates are refined by 1 to 64 workers, and the
    /// steps are printed too where labels are asked for.
    Replay {
        workers: u32,
        labels: bool,
    },
    /// The same, by a thread for each session; the trace is printed where it is asked for.
    Threads {
        workers: u32,
        labels: bool,
        trace: bool,
    },
    /// Print a script that the seed makes: 1 to 5000 rows, and 1 to 64 sessions.
    Make {
        seed: u64,
        rows: u32,
        sessions: u8,
    },
}

/// What the words ask for, of which each may stand: `None` where they have no form.
#[tactic(auto, unfolding(crate::specs::Words::form_of))]
pub fn form_in(alloc: Global, words: &[&str]) -> Result<Option<Form>, AllocError>
    requires { list_all may_stand (map (λ word. word.now) words.now) ≡ true }
    ensures form { IfOk result (λ form. form ≡ form_of (map (λ word. word.now) words.now)) }
    ensures within { IfOk result (λ form. IfSome form IsForm) }
{
    match words {
        [] => Ok(None),
        [command, ..] => {
            if *command == "replay" {
                replay_in(alloc, words)
            } else if *command == "threads" {
                threads_in(alloc, words)
            } else if *command == "make" {
                make_in(alloc, words)
            } else {
                Ok(None)
            }
        }
    }
}

fn replay_in(alloc: Global, words: &[&str]) -> Result<Option<Form>, AllocError>
    requires { list_all may_stand (map (λ word. word.now) words.now) ≡ true }
    ensures form { IfOk result (λ form. form ≡ replay_of (drop 1 (map (λ word. word.now) words.now))) }
    ensures within { IfOk result (λ form. IfSome form IsForm) }
{
    let Some(matches) = parsed(replay_usage(alloc)?, words)? else {
        return Ok(None);
    };
    let Some(workers) = workers_in(&matches) else {
        return Ok(None);
    };
    let labels = matches.get_flag("labels");
    Ok(Some(Form::Replay { workers, labels }))
}

fn threads_in(alloc: Global, words: &[&str]) -> Result<Option<Form>, AllocError>
    requires { list_all may_stand (map (λ word. word.now) words.now) ≡ true }
    ensures form { IfOk result (λ form. form ≡ threads_of (drop 1 (map (λ word. word.now) words.now))) }
    ensures within { IfOk result (λ form. IfSome form IsForm) }
{
    let Some(matches) = parsed(threads_usage(alloc)?, words)? else {
        return Ok(None);
    };
    let Some(workers) = workers_in(&matches) else {
        return Ok(None);
    };
    let labels = matches.get_flag("labels");
    let trace = matches.get_flag("trace");
    Ok(Some(Form::Threads {
        workers,
        labels,
        trace,
    }))
}

fn make_in(alloc: Global, words: &[&str]) -> Result<Option<Form>, AllocError>
    requires { list_all may_stand (map (λ word. word.now) words.now) ≡ true }
    ensures form { IfOk result (λ form. form ≡ make_of (drop 1 (map (λ word. word.now) words.now))) }
    ensures within { IfOk result (λ form. IfSome form IsForm) }
{
    let Some(matches) = parsed(make_usage(alloc)?, words)? else {
        return Ok(None);
    };
    Ok(made(&matches))
}

fn made(matches: &ArgMatches<'_>) -> Option<Form>
    ensures form { result ≡ made_of
        (option_and_then (λ word. within 0 18446744073709551615 (number_in word)) (first_of (codes "seed") (rows_of (found_of matches.now))))
        (option_and_then (λ word. within 1 5000 (number_in word)) (first_of (codes "rows") (rows_of (found_of matches.now))))
        (option_and_then (λ word. within 1 64 (number_in word)) (first_of (codes "sessions") (rows_of (found_of matches.now)))) }
    ensures within { IfSome result IsForm }
{
    let seed = number_of(matches, "seed", 0, u128::from(u64::MAX))? as u64;
    let rows = number_of(matches, "rows", 1, 5000)? as u32;
    let sessions = number_of(matches, "sessions", 1, 64)? as u8;
    Some(Form::Make {
        seed,
        rows,
        sessions,
    })
}

/// How many workers there are: one where the option isn't there.
fn workers_in(matches: &ArgMatches<'_>) -> Option<u32>
    ensures workers { result ≡ workers_said (first_of (codes "workers") (rows_of (found_of matches.now))) }
    ensures within { IfSome result (IsWithin 1 64) }
{
    match matches.get_str("workers") {
        Some(word) => Some(number_within(word.as_bytes(), 1, 64)? as u32),
        None => Some(1),
    }
}

/// The number that the argument says, where it is there and lies within the limits.
fn number_of(matches: &ArgMatches<'_>, name: &str, least: u128, most: u128) -> Option<u128>
    ensures number { result ≡ option_and_then (λ word. within least most (number_in word)) (first_of name.now (rows_of (found_of matches.now))) }
    ensures within { IfSome result (IsWithin least most) }
{
    number_within(matches.get_str(name)?.as_bytes(), least, most)
}

/// The number that the word says, where it lies within the limits.
fn number_within(word: &[u8], least: u128, most: u128) -> Option<u128>
    ensures number { result ≡ within least most (number_in word.now) }
    ensures within { IfSome result (IsWithin least most) }
{
    match number_in(word) {
        Some(number) if least <= number && number <= most => Some(number),
        _ => None,
    }
}

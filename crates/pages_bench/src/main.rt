//! Calls of the ordered store, to be timed: `pages_bench TASK COUNT ROUNDS`. The keys are as many numbers in
//! no order. A task is done that many times over: `insert` puts the keys into an empty store, `find` looks each
//! of them up, `step` goes from the first key to the next one up to the last, and `remove` fills a store and
//! takes every second key out again. It prints how many keys were put in, found, stepped on or left, in all
//! rounds. It ends with 1 for other words, and with 2 where memory is wanting or output fails.
#![tactic(auto)]

use sg_pages::Pages;
use std::alloc::{AllocError, Global};
use std::env;
use std::process::ExitCode;

/// What is timed.
#[derive(Drop)]
enum Task {
    Insert,
    Find,
    Step,
    Remove,
}

/// What the words ask for.
#[derive(Drop)]
struct Job {
    task: Task,
    count: u32,
    rounds: u32,
}

fn main(rt: HostRuntime) -> ExitCode {
    let Some(job) = job_of(&rt) else {
        return ExitCode::from(1);
    };
    match done(rt.alloc(), &job) {
        Ok(keys) => match println!(rt; "{keys}") {
            Ok(()) => ExitCode::SUCCESS,
            Err(_) => ExitCode::from(2),
        },
        Err(AllocError) => ExitCode::from(2),
    }
}

fn job_of(rt: &HostRuntime) -> Option<Job> {
    let mut words = env::args(rt).ok()?.skip(1);
    let (Some(task), Some(count), Some(rounds), None) = (
        words.next(),
        words.next(),
        words.next(),
        words.next(),
    ) else {
        return None;
    };
    let task = match task.as_str() {
        "insert" => Task::Insert,
        "find" => Task::Find,
        "step" => Task::Step,
        "remove" => Task::Remove,
        _ => return None,
    };
    let count: u32 = count.parse().ok()?;
    let rounds: u32 = rounds.parse().ok()?;
    Some(Job {
        task,
        count,
        rounds,
    })
}

/// How many keys were put in, found, stepped on or left in all rounds.
fn done(alloc: Global, job: &Job) -> Result<u64, AllocError> {
    match job.task {
        Task::Insert => inserted(alloc, job),
        Task::Find => {
            let pages = filled(alloc, job.count)?;
            Ok(found(&pages, job))
        }
        Task::Step => {
            let pages = filled(alloc, job.count)?;
            Ok(stepped(&pages, job.rounds))
        }
        Task::Remove => left(alloc, job),
    }
}

fn inserted(alloc: Global, job: &Job) -> Result<u64, AllocError> {
    let mut keys: u64 = 0;
    for _ in 0..job.rounds {
        let pages = filled(alloc, job.count)?;
        keys = keys.saturating_add(pages.len() as u64);
    }
    Ok(keys)
}

fn found(pages: &Pages<u32, u32>, job: &Job) -> u64 {
    let mut keys: u64 = 0;
    for _ in 0..job.rounds {
        let there = (0..job.count)
            .filter(|k| pages.get(&mixed(*k)).is_some())
            .count();
        keys = keys.saturating_add(there as u64);
    }
    keys
}

fn stepped(pages: &Pages<u32, u32>, rounds: u32) -> u64 {
    let mut keys: u64 = 0;
    for _ in 0..rounds {
        keys = keys.saturating_add(steps(pages));
    }
    keys
}

/// How many keys are met from the first to the last.
fn steps(pages: &Pages<u32, u32>) -> u64 {
    let mut keys: u64 = 0;
    let mut next = pages.at_or_after(&0);
    for _ in 0..pages.len() {
        let Some((key, _)) = next else {
            return keys;
        };
        keys = keys.saturating_add(1);
        next = pages.after(key);
    }
    keys
}

fn left(alloc: Global, job: &Job) -> Result<u64, AllocError> {
    let mut keys: u64 = 0;
    for _ in 0..job.rounds {
        let mut pages = filled(alloc, job.count)?;
        for k in (0..job.count).step_by(2) {
            pages.remove(&mixed(k));
        }
        keys = keys.saturating_add(pages.len() as u64);
    }
    Ok(keys)
}

/// A store of as many keys, put in one by one.
fn filled(alloc: Global, count: u32) -> Result<Pages<u32, u32>, AllocError> {
    let mut pages = Pages::new(alloc);
    for k in 0..count {
        pages.reserve(1)?;
        pages.insert_reserved(mixed(k), k);
    }
    Ok(pages)
}

/// The number's bits mixed, so that numbers in order are in none. No two numbers give the same.
fn mixed(k: u32) -> u32 {
    let k = (k ^ (k >> 16)).wrapping_mul(0x85eb_ca6b);
    let k = (k ^ (k >> 13)).wrapping_mul(0xc2b2_ae35);
    k ^ (k >> 16)
}

ghost use Rattle.std.specs.Prelude.{◌≡◌, ◌++◌, IfOk, OnOk, length};
ghost use Rattle.std.specs.Fmt.{decimal};
ghost use Rattle.sg_report.specs.Summaries.{IsSummaryOf, ended_by, had_no_memory, was_asked, was_victim};

use crate::reports::others_of;
use itoa::Buffer;
use sg_run::Run;
use sg_shape::{CellJudge, Judge};
use sg_texts::{Ending, Other};
use std::alloc::{AllocError, Global};

/// One line, ended by a line feed, that sums up a run: how many transactions committed, were rolled back as they asked,
/// were victims, and had no memory; how many rows there are at the end, and how many labels. `AllocError` is want of
/// memory.
pub fn summary<J: Judge + Copy + Send + Sync, C: CellJudge + Copy + Send + Sync>(
    alloc: Global,
    run: &Run<J, C>,
) -> Result<Vec<u8>, AllocError>
    ensures { IfOk result (λ line. IsSummaryOf run.now line.items) }
{
    let engine = run.engine();
    let others = others_of(alloc, run)?;
    let rows = engine.rows().committed(alloc)?;
    let mut out = Vec::new(alloc);
    append_count(b"# commits ", engine.journal().len() as u64, &mut out)?;
    append_count(b" rolled back ", rolled_back(others.as_slice()), &mut out)?;
    append_count(b" victims ", victims(others.as_slice()), &mut out)?;
    append_count(b" no memory ", without_memory(others.as_slice()), &mut out)?;
    append_count(b" rows ", rows.len() as u64, &mut out)?;
    append_count(b" labels ", engine.trace().len() as u64, &mut out)?;
    out.extend_from_slice(b"\n")?;
    Ok(out)
}

/// How many transactions were rolled back as their scripts asked.
fn rolled_back(others: &[Other]) -> u64
    ensures { result ≡ ended_by was_asked others.now }
{
    others
        .iter()
        .filter(|other| matches!(other.ending, Ending::RolledBack))
        .count() as u64
}

/// How many were victims.
fn victims(others: &[Other]) -> u64
    ensures { result ≡ ended_by was_victim others.now }
{
    others
        .iter()
        .filter(|other| matches!(other.ending, Ending::Victim { .. }))
        .count() as u64
}

/// For how many there was no memory.
fn without_memory(others: &[Other]) -> u64
    ensures { result ≡ ended_by had_no_memory others.now }
{
    others
        .iter()
        .filter(|other| matches!(other.ending, Ending::NoMemory))
        .count() as u64
}

/// Appends the words and the number.
fn append_count(words: &[u8], number: u64, out: &mut Vec<u8>) -> Result<(), AllocError>
    ensures { OnOk result (out.new.items ≡ out.old.items ++ (words.now ++ decimal number)) }
{
    let mut buffer = Buffer::new();
    out.extend_from_slice(words)?;
    out.extend_from_slice(buffer.format(number).as_bytes())
}

ghost use Rattle.std.specs.Prelude.{◌≡◌, ◌<◌, ◌++◌, IfOk, IfSome, OnOk, All, length, option_map, slice_index};
ghost use Rattle.std.specs.List.{flat_map};
ghost use Rattle.sg_modes.specs.Sessions.{IsSession};
ghost use Rattle.sg_plain.specs.Sat.{AreSoundAnswers};
ghost use Rattle.sg_texts.specs.Fitting.{IsLabel};
ghost use Rattle.sg_texts.specs.Labels.{labels_text};
ghost use Rattle.sg_texts.specs.Laws.{IsCommit};
ghost use Rattle.sg_texts.specs.Sound.{AreSoundCommits, IsSoundLabel};
ghost use Rattle.sg_texts.specs.Texts.{commit_text, commits_text, spaced};
ghost use Rattle.sg_texts.specs.Told.{IsTold, if_asked, schedule_text, told_text};

use crate::labels::append_labels;
use crate::texts::{
    append_answers, append_number, append_others, append_owner, append_rows, append_spaced,
};
use crate::told::{Committed, Told};
use sg_modes::Schedule;
use sg_trace::Label;
use std::alloc::{AllocError, Global};

/// The text of what is told, each line ended by a line feed. First stands a line for each commit, with its place from
/// 1, its session and its number there, and below it a line for each answer, after two spaces; then a line for each
/// other transaction; then the number of rows, and a line for each row, after two spaces: its key and its canonical
/// well-known text. Where they are asked for, there follow the number of labels, and a line for each label, after two
/// spaces; and the schedule, as a line of a script. `Err` comes for want of memory alone.
pub fn tell(alloc: Global, told: &Told) -> Result<Vec<u8>, AllocError>
    requires commits { AreSoundCommits told.now.commits }
    requires labels { IfSome told.now.labels (λ labels. All IsSoundLabel labels) }
    ensures text { IfOk result (λ text. text.items ≡ told_text told.now) }
    ensures fits { IfOk result (λ _. IsTold told.now) }
{
    let mut out = Vec::new(alloc);
    append_commits(alloc, told.commits.as_slice(), &mut out)?;
    append_others(told.others.as_slice(), &mut out)?;
    append_rows(alloc, told.rows.as_slice(), &mut out)?;
    append_asked_labels(alloc, told.labels, &mut out)?;
    append_asked_schedule(&told.schedule, &mut out)?;
    Ok(out)
}

fn append_commits(alloc: Global, commits: &[Committed], out: &mut Vec<u8>) -> Result<(), AllocError>
    requires { AreSoundCommits commits.now }
    ensures text { OnOk result (out.new.items ≡ out.old.items ++ commits_text commits.now) }
    ensures fits { OnOk result (All IsCommit commits.now) }
{
    for (index, commit) in commits.iter().enumerate() {
        append_commit(alloc, index as u64 + 1, commit, out)?;
    }
    Ok(())
}

fn append_commit(
    alloc: Global,
    place: u64,
    commit: &Committed,
    out: &mut Vec<u8>,
) -> Result<(), AllocError>
    requires { AreSoundAnswers commit.now.answers }
    ensures text { OnOk result (out.new.items ≡ out.old.items ++ commit_text (place, commit.now)) }
    ensures fits { OnOk result (IsCommit commit.now) }
{
    out.extend_from_slice(b"commit ")?;
    append_number(place, out)?;
    append_owner(commit.session, commit.transaction, out)?;
    out.extend_from_slice(b"\n")?;
    append_answers(alloc, commit.answers, out)
}

fn append_asked_labels(
    alloc: Global,
    labels: Option<&[Label]>,
    out: &mut Vec<u8>,
) -> Result<(), AllocError>
    requires { IfSome labels (λ labels. All IsSoundLabel labels.now) }
    ensures text { OnOk result (out.new.items ≡ out.old.items ++ if_asked labels_text (option_map (λ labels. labels.now) labels.entry)) }
    ensures fits { OnOk result (IfSome labels.entry (λ labels. All IsLabel labels.now)) }
{
    match labels {
        None => Ok(()),
        Some(labels) => append_labels(alloc, labels, out),
    }
}

fn append_asked_schedule(schedule: &Option<Schedule>, out: &mut Vec<u8>) -> Result<(), AllocError>
    ensures text { OnOk result (out.new.items ≡ out.old.items ++ if_asked schedule_text schedule.now) }
    ensures fits { OnOk result (IfSome schedule.now (λ turns. All IsSession turns)) }
{
    match schedule {
        None => Ok(()),
        Some(schedule) => append_schedule(schedule, out),
    }
}

fn append_schedule(schedule: &Schedule, out: &mut Vec<u8>) -> Result<(), AllocError>
    ensures text { OnOk result (out.new.items ≡ out.old.items ++ schedule_text schedule.now) }
    ensures fits { OnOk result (All IsSession schedule.now) }
{
    out.extend_from_slice(b"schedule")?;
    append_turns(schedule, out)?;
    out.extend_from_slice(b"\n")
}

/// Appends the session of each turn after a space.
fn append_turns(schedule: &Schedule, out: &mut Vec<u8>) -> Result<(), AllocError>
    ensures text { OnOk result (out.new.items ≡ out.old.items ++ flat_map spaced schedule.now) }
    ensures fits { OnOk result (All IsSession schedule.now) }
{
    for place in 0..schedule.len() {
        append_turn(schedule, place, out)?;
    }
    Ok(())
}

/// Appends the session of the turn at a place, counted from 0, after a space.
fn append_turn(schedule: &Schedule, place: usize, out: &mut Vec<u8>) -> Result<(), AllocError>
    requires { place < length schedule.now }
    ensures text { OnOk result (out.new.items ≡ out.old.items ++ spaced (slice_index schedule.now place)) }
    ensures fits { OnOk result (IsSession (slice_index schedule.now place)) }
{
    match schedule.at(place) {
        None => unreachable!(),
        Some(session) => append_spaced(session.number() as u64, out),
    }
}

ghost use Rattle.std.specs.Prelude.{◌≡◌, ◌≤◌, ◌-◌, ◌++◌, ◌∷◌, [], Some, length, map, slice_get, option_map, IfOk, OnOk, IfSome, All};
ghost use Rattle.sg_run.specs.Runs.{IsRun};
ghost use Rattle.sg_texts.specs.Sound.{AreSoundCommits, IsSoundLabel};
ghost use Rattle.sg_trace.specs.Scripts.{schedule as turns};
ghost use Rattle.sg_report.specs.Reports.{IsReportOf, Tells, asked, journal_in, commit_of, ending_of, other_at, others_of, others_in};

use sg_modes::{Schedule, Session};
use sg_run::{Outcome, Run};
use sg_script::SessionScript;
use sg_shape::{CellJudge, Judge};
use sg_texts::{Committed, Ending, Other, Told, tell};
use sg_trace::{Label, schedule_of};
use std::alloc::{AllocError, Global};

/// The text of a run, each line ended by a line feed: a line for each commit, by its place, and below it its answers;
/// a line for each other transaction that has ended, by session and number; and the committed rows. Where they are
/// asked for, there follow the labels, and whose turns they came of, as a line of a script. `AllocError` is want of
/// memory.
pub fn report<J: Judge + Copy + Send + Sync, C: CellJudge + Copy + Send + Sync>(
    alloc: Global,
    run: &Run<J, C>,
    labels: bool,
    schedule: bool,
) -> Result<Vec<u8>, AllocError>
    ensures { IfOk result (λ text. IsReportOf labels schedule run.now text.items) }
{
    let told = told(alloc, run, labels, schedule)?;
    let text = tell(alloc, &told)?;
    Ok(text)
}

/// What is told of a run.
fn told<'a, J: Judge + Copy + Send + Sync, C: CellJudge + Copy + Send + Sync>(
    alloc: Global,
    run: &'a Run<J, C>,
    labels: bool,
    schedule: bool,
) -> Result<Told<'a>, AllocError>
    ensures tells { IfOk result (λ told. Tells labels schedule run.now told) }
    ensures legal { IfOk result (λ _. IsRun run.now) }
    ensures commits { IfOk result (λ told. AreSoundCommits told.commits) }
    ensures labels { IfOk result (λ told. IfSome told.labels (λ labels. All IsSoundLabel labels)) }
{
    let commits = commits_of(alloc, run)?;
    let others = others_of(alloc, run)?;
    let rows = run.engine().rows().committed(alloc)?;
    let labels = labels_asked(run, labels);
    let schedule = schedule_asked(alloc, run, schedule)?;
    Ok(Told {
        commits,
        others,
        rows,
        labels,
        schedule,
    })
}

/// The labels of the trace, where they are asked for.
fn labels_asked<'a, J: Judge + Copy + Send + Sync, C: CellJudge + Copy + Send + Sync>(
    run: &'a Run<J, C>,
    labels: bool,
) -> Option<&'a [Label]>
    ensures { option_map (λ told. told.now) result ≡ asked labels run.now.engine.labels }
{
    if labels {
        Some(run.engine().trace().as_slice())
    } else {
        None
    }
}

/// Whose turns the trace came of, where that is asked for.
fn schedule_asked<J: Judge + Copy + Send + Sync, C: CellJudge + Copy + Send + Sync>(
    alloc: Global,
    run: &Run<J, C>,
    schedule: bool,
) -> Result<Option<Schedule>, AllocError>
    ensures { IfOk result (λ told. told ≡ asked schedule (turns run.now.engine.labels)) }
{
    if !schedule {
        return Ok(None);
    }
    let turns = schedule_of(alloc, run.engine().trace())?;
    Ok(Some(turns))
}

/// The commits, in their order.
#[tactic(auto, using(crate::proofs::Fronts::commits_start, crate::proofs::Fronts::commits_end))]
fn commits_of<'a, J: Judge + Copy + Send + Sync, C: CellJudge + Copy + Send + Sync>(
    alloc: Global,
    run: &'a Run<J, C>,
) -> Result<Vec<Committed<'a>>, AllocError>
    ensures { IfOk result (λ commits. commits.items ≡ map commit_of (journal_in run.now)) }
{
    let count = run.engine().journal().len() as u64;
    let mut commits = Vec::new(alloc);
    for place in 0..count {
        let commit = commit_at(run, place + 1);
        commits.push(commit)?;
    }
    Ok(commits)
}

/// The commit at a place, counted from 1. There has to be one.
#[tactic(auto, using(crate::proofs::Committed::no_entry, crate::proofs::Committed::no_commit))]
fn commit_at<'a, J: Judge + Copy + Send + Sync, C: CellJudge + Copy + Send + Sync>(
    run: &'a Run<J, C>,
    place: u64,
) -> Committed<'a>
    requires least { 1 ≤ place }
    requires most { place ≤ length run.now.engine.journal }
    ensures { slice_get (map commit_of (journal_in run.now)) (place - 1) ≡ Some result }
{
    let Some((session, transaction)) = run.commit_at(place) else {
        unreachable!()
    };
    let Some(entry) = run.engine().journal().at((place - 1) as usize) else {
        unreachable!()
    };
    Committed {
        session,
        transaction,
        answers: entry.answers().as_slice(),
    }
}

/// The transactions that ended without a commit, by session and then by number.
pub(crate) fn others_of<J: Judge + Copy + Send + Sync, C: CellJudge + Copy + Send + Sync>(
    alloc: Global,
    run: &Run<J, C>,
) -> Result<Vec<Other>, AllocError>
    ensures { IfOk result (λ others. others.items ≡ others_in run.now) }
{
    let sessions = run.script().sessions();
    let mut others = Vec::new(alloc);
    for session in sessions {
        put_others(run, session, &mut others)?;
    }
    Ok(others)
}

/// Puts those of a session last, by number.
#[tactic(auto, using(crate::proofs::Fronts::others_start, crate::proofs::Fronts::others_end))]
fn put_others<J: Judge + Copy + Send + Sync, C: CellJudge + Copy + Send + Sync>(
    run: &Run<J, C>,
    session: &SessionScript,
    others: &mut Vec<Other>,
) -> Result<(), AllocError>
    ensures { OnOk result (others.new.items ≡ others.old.items ++ others_of run.now session.now) }
{
    let count = session.transactions.len() as u64;
    for place in 0..count {
        put_other(run, session.session, place + 1, others)?;
    }
    Ok(())
}

/// Puts the session's transaction with this number, from 1, last, unless it committed or hasn't ended.
fn put_other<J: Judge + Copy + Send + Sync, C: CellJudge + Copy + Send + Sync>(
    run: &Run<J, C>,
    session: Session,
    transaction: u64,
    others: &mut Vec<Other>,
) -> Result<(), AllocError>
    ensures { OnOk result (others.new.items ≡ others.old.items ++ other_at run.now session transaction) }
{
    let Some(outcome) = run.outcome(session, transaction) else {
        return Ok(());
    };
    let Some(ending) = ending_of(&outcome) else {
        return Ok(());
    };
    others.push(Other {
        session,
        transaction,
        ending,
    })?;
    Ok(())
}

/// What is told of an outcome, unless it is a commit.
fn ending_of(outcome: &Outcome) -> Option<Ending>
    ensures { result ≡ ending_of outcome.now }
{
    match outcome {
        Outcome::Committed { .. } => None,
        Outcome::RolledBack => Some(Ending::RolledBack),
        Outcome::Victim { cycle } => Some(Ending::Victim { cycle: *cycle }),
        Outcome::NoMemory => Some(Ending::NoMemory),
    }
}

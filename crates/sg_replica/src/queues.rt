//! Entries on their way to the copies.
ghost use Rattle.std.specs.Prelude.{◌≡◌, ◌⊎◌, [], ◌∷◌, ◌++◌, drop, fold, All, None, Some, OnErr, OnOk};
ghost use Rattle.left_right.specs.Sides.{view};
ghost use Rattle.sg_fronts.specs.Journals.{BeginsWith};
ghost use Rattle.sg_plain.specs.Sat.{AreSound};
ghost use Rattle.sg_copies.specs.Copied.{with_entry};
ghost use Rattle.sg_copies.specs.Views.{IsWhole};
ghost use Rattle.sg_replica.specs.Queues.{Brought, IsDesk, IsReady, IsHistory, MayPublish, Taken, TakesOne, all_of};

use sg_copies::{Changes, CopyWriter, Looks, Writes};
use sg_fronts::Recorder;
use sg_trace::JournalEntry;
use std::alloc::{AllocError, Global};
use std::sync::Wait;

/// Puts what was recorded and not sent into the writer's queue. Without memory for it, it stays unsent.
fn send(writer: &mut CopyWriter, unsent: &mut Option<Changes>) -> Result<(), AllocError>
    ensures desk { writer.new.desk ≡ writer.old.desk }
    ensures queue { all_of (drop writer.new.behind writer.new.log.items) unsent.new ≡ all_of (drop writer.old.behind writer.old.log.items) unsent.old }
    ensures ok { OnOk result (unsent.new ≡ None) }
{
    let Some(changes) = unsent.take() else {
        return Ok(());
    };
    match writer.append(changes) {
        Ok(()) => Ok(()),
        Err(changes) => {
            *unsent = Some(changes);
            Err(AllocError)
        }
    }
}

/// Records one entry, and puts it into the queue. `AllocError` is want of memory: either nothing has changed then, or
/// the entry is recorded and not sent.
fn take(
    alloc: Global,
    writer: &mut CopyWriter,
    recorder: &mut Recorder,
    unsent: &mut Option<Changes>,
    entry: &JournalEntry,
) -> Result<(), AllocError>
    requires sound { AreSound entry.now.statements }
    requires sent { unsent.old ≡ None }
    ensures desk { writer.new.desk ≡ writer.old.desk }
    ensures taken { OnOk result (TakesOne entry.now recorder.old recorder.new (drop writer.old.behind writer.old.log.items) (all_of (drop writer.new.behind writer.new.log.items) unsent.new)) }
    ensures sent { OnOk result (unsent.new ≡ None) }
    ensures err { OnErr result (TakesOne entry.now recorder.old recorder.new (drop writer.old.behind writer.old.log.items) (all_of (drop writer.new.behind writer.new.log.items) unsent.new) ⊎ ((recorder.new ≡ recorder.old) × (all_of (drop writer.new.behind writer.new.log.items) unsent.new ≡ drop writer.old.behind writer.old.log.items))) }
{
    let made = Writes::of(alloc, entry)?;
    recorder.add(entry)?;
    let front = recorder.front().again();
    *unsent = Some(Changes::new(made, entry, front));
    send(writer, unsent)
}

/// Takes the rest of the journal into the queue. After want of memory what was taken in stays.
fn take_all(
    alloc: Global,
    writer: &mut CopyWriter,
    recorder: &mut Recorder,
    unsent: &mut Option<Changes>,
    journal: &[JournalEntry],
) -> Result<(), AllocError>
    requires sound { All (λ entry. AreSound entry.statements) journal.now }
    requires begins { BeginsWith journal.now recorder.old.entries }
    requires sent { unsent.old ≡ None }
    requires ready { IsReady writer.old.desk.shown.value (drop writer.old.behind writer.old.log.items) recorder.old }
    ensures desk { writer.new.desk ≡ writer.old.desk }
    ensures taken { Taken writer.old.desk.shown.value journal.now recorder.old recorder.new (all_of (drop writer.new.behind writer.new.log.items) unsent.new) }
    ensures ok { OnOk result ((recorder.new.entries ≡ journal.now) × (unsent.new ≡ None)) }
{
    let start = recorder.front().number() as usize;
    for place in start..journal.len() {
        take(alloc, writer, recorder, unsent, &journal[place])?;
    }
    Ok(())
}

/// Takes what wasn't sent and then the rest of the journal into the queue.
fn take_new(
    alloc: Global,
    writer: &mut CopyWriter,
    recorder: &mut Recorder,
    unsent: &mut Option<Changes>,
    journal: &[JournalEntry],
) -> Result<(), AllocError>
    requires sound { All (λ entry. AreSound entry.statements) journal.now }
    requires begins { BeginsWith journal.now recorder.old.entries }
    requires ready { IsReady writer.old.desk.shown.value (all_of (drop writer.old.behind writer.old.log.items) unsent.old) recorder.old }
    ensures desk { writer.new.desk ≡ writer.old.desk }
    ensures taken { Taken writer.old.desk.shown.value journal.now recorder.old recorder.new (all_of (drop writer.new.behind writer.new.log.items) unsent.new) }
    ensures ok { OnOk result ((recorder.new.entries ≡ journal.now) × (unsent.new ≡ None)) }
{
    send(writer, unsent)?;
    take_all(alloc, writer, recorder, unsent, journal)
}

/// Publishes what is in the queue, all at once. After want of memory what is published is as before.
pub(crate) fn publish<R: Wait>(rt: &R, writer: CopyWriter) -> (CopyWriter, Result<(), AllocError>)
    requires { MayPublish writer.desk.shown.value (fold with_entry writer.desk.shown.value (drop writer.behind writer.log.items)) }
    ensures ok { OnOk result.1 ((result.0.desk.shown.value ≡ fold with_entry writer.desk.shown.value (drop writer.behind writer.log.items)) × (drop result.0.behind result.0.log.items ≡ []) × (view result.0.desk.place ≡ Some result.0.desk.shown.value) × IsWhole result.0.desk.shown.value) }
    ensures err { OnErr result.1 ((result.0.desk.shown.value ≡ writer.desk.shown.value) × (drop result.0.behind result.0.log.items ≡ drop writer.behind writer.log.items) × (view result.0.desk.place ≡ view writer.desk.place)) }
{
    writer.publish_as::<Looks, R>(rt)
}

/// Takes the rest of the journal in and publishes it. Where there is nothing new no reader is waited for.
pub(crate) fn bring<R: Wait>(
    rt: &R,
    alloc: Global,
    writer: CopyWriter,
    recorder: &mut Recorder,
    unsent: &mut Option<Changes>,
    journal: &[JournalEntry],
) -> (CopyWriter, Result<u64, AllocError>)
    requires desk { IsDesk (view writer.desk.place) writer.desk.shown.value (all_of (drop writer.behind writer.log.items) unsent.old) recorder.old }
    requires sound { All (λ entry. AreSound entry.statements) journal.now }
    requires begins { BeginsWith journal.now recorder.old.entries }
    requires serial { IsHistory writer.desk.shown.value.opening journal.now }
    ensures { Brought journal.now writer.desk.shown.value recorder.old (view result.0.desk.place) result.0.desk.shown.value (all_of (drop result.0.behind result.0.log.items) unsent.new) recorder.new result.1 }
{
    let mut writer = writer;
    if let Err(error) = take_new(alloc, &mut writer, recorder, unsent, journal) {
        return (writer, Err(error));
    }
    if !writer.has_pending_operations() {
        return (writer, Ok(recorder.front().number()));
    }
    let (writer, published) = publish(rt, writer);
    match published {
        Ok(()) => (writer, Ok(recorder.front().number())),
        Err(error) => (writer, Err(error)),
    }
}

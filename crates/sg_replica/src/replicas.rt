//! A replica: one publisher, and its readers.
ghost use Rattle.std.specs.Prelude.{◌≡◌, ◌≤◌, ◌∷◌, [], drop, length, IfOk, MatchOption};
ghost use Rattle.std.specs.List.{AllByRecursion};
ghost use Rattle.left_right.specs.Sides.{view};
ghost use Rattle.sg_replica.specs.Starting.{IsFresh, IsIntroduced, IsNewcomer, IsOpened};

use crate::publishers::Publisher;
use crate::queues::publish;
use crate::snapshots::Snapshot;
use left_right::writer::Writer;
use sg_copies::{CopyWriter, Learns, TableCopy, Tells};
use sg_engine::Engine;
use sg_fronts::{Front, Recorder};
use sg_plain::PlainRows;
use sg_shape::{CellJudge, Judge};
use std::alloc::{AllocError, Global};
use std::collections::VecDeque;
use std::marker::Model;
use std::sync::Wait;

/// Snapshots that nobody has taken yet. Contracts see them as their list.
#[derive(Drop)]
pub struct Snapshots {
    waiting: VecDeque<Snapshot>,
}

impl Model for Snapshots {
    ghost use Rattle.std.specs.Prelude.{List};
    ghost use Rattle.sg_replica.specs.Values.{SnapshotValue};

    ghost Value = { List SnapshotValue };

    ghost view = { λ it. it.waiting.items };
}

impl Snapshots {
    /// The next of them: `None` exactly after the last.
    pub fn next(&mut self) -> Option<Snapshot>
        ensures { MatchOption result ((self.old ≡ []) × (self.new ≡ [])) (λ snapshot. self.old ≡ snapshot ∷ self.new) }
    {
        self.waiting.pop_front()
    }
}

/// A publisher and its readers, which may go to other threads.
pub struct Replica {
    /// Brings the engine's journal.
    pub publisher: Publisher,
    /// Read what it has brought.
    pub snapshots: Snapshots,
}

impl Replica {
    /// Two copies of an engine's opening rows, and 1 to 64 readers of them. Nothing may be committed yet. Where a
    /// reader's place is refused it asks again: its promise holds if it returns. `AllocError` is want of memory.
    pub fn start<R: Wait, J: Judge + Copy + Send + Sync, C: CellJudge + Copy + Send + Sync>(
        rt: &R,
        alloc: Global,
        engine: &Engine<J, C>,
        readers: u8,
    ) -> Result<Replica, AllocError>
        requires some { 1 ≤ readers }
        requires few { readers ≤ 64 }
        requires fresh { engine.now.journal ≡ [] }
        ensures publisher { IfOk result (λ it. (it.publisher.opening ≡ engine.now.stage.opening) × (it.publisher.published ≡ []) × (it.publisher.pending ≡ [])) }
        ensures snapshots { IfOk result (λ it. AllByRecursion (IsFresh it.publisher.book engine.now.stage.opening) it.snapshots) }
        ensures readers { IfOk result (λ it. length it.snapshots ≡ readers) }
    {
        let rows = engine.rows().committed(alloc)?;
        Replica::over(rt, alloc, &rows, readers)
    }

    /// The same over these rows.
    fn over<R: Wait>(
        rt: &R,
        alloc: Global,
        rows: &PlainRows,
        readers: u8,
    ) -> Result<Replica, AllocError>
        requires some { 1 ≤ readers }
        requires few { readers ≤ 64 }
        ensures publisher { IfOk result (λ it. (it.publisher.opening ≡ rows.now) × (it.publisher.published ≡ []) × (it.publisher.pending ≡ [])) }
        ensures snapshots { IfOk result (λ it. AllByRecursion (IsFresh it.publisher.book rows.now) it.snapshots) }
        ensures readers { IfOk result (λ it. length it.snapshots ≡ readers) }
    {
        let recorder = Recorder::new();
        let mut writer = open(rt, alloc, rows, &recorder, readers)?;
        match enroll(rt, alloc, &mut writer, recorder.front(), readers) {
            Ok(waiting) => Ok(Replica {
                publisher: Publisher::new(alloc, writer, recorder),
                snapshots: Snapshots { waiting },
            }),
            Err(error) => {
                writer.take(rt);
                Err(error)
            }
        }
    }
}

/// A writer of two copies of these rows, who has seen them.
fn open<R: Wait>(
    rt: &R,
    alloc: Global,
    rows: &PlainRows,
    recorder: &Recorder,
    readers: u8,
) -> Result<CopyWriter, AllocError>
    requires some { 1 ≤ readers }
    requires few { readers ≤ 64 }
    requires fresh { recorder.now.entries ≡ [] }
    ensures { IfOk result (λ it. IsOpened (view it.desk.place) it.desk.shown.value (drop it.behind it.log.items) rows.now recorder.now) }
{
    let (first, second) = TableCopy::two(alloc, rows, recorder.front())?;
    let writer: CopyWriter = Writer::new(alloc, first, second, readers as usize)?;
    let (writer, seen) = publish(rt, writer);
    if let Err(error) = seen {
        writer.take(rt);
        return Err(error);
    }
    Ok(writer)
}

/// So many readers who know what the writer knows.
fn enroll<R: Wait>(
    rt: &R,
    alloc: Global,
    writer: &mut CopyWriter,
    front: &Front,
    readers: u8,
) -> Result<VecDeque<Snapshot>, AllocError>
    requires { IsIntroduced (view writer.old.desk.place) writer.old.desk.shown.value front.now }
    ensures desk { (writer.new.desk.shown ≡ writer.old.desk.shown) × (writer.new.log ≡ writer.old.log) × (writer.new.behind ≡ writer.old.behind) × (view writer.new.desk.place ≡ view writer.old.desk.place) }
    ensures each { IfOk result (λ it. AllByRecursion (IsNewcomer writer.old.desk.shown.value front.now) it.items) }
    ensures count { IfOk result (λ it. length it.items ≡ readers) }
{
    let mut waiting = VecDeque::new(alloc);
    for _ in 0..readers {
        let snapshot = admit(rt, writer, front);
        waiting.push_back(snapshot)?;
    }
    Ok(waiting)
}

/// A reader who knows what the writer knows. Where its place is refused it asks again.
fn admit<R: Wait>(rt: &R, writer: &mut CopyWriter, front: &Front) -> Snapshot
    requires { IsIntroduced (view writer.old.desk.place) writer.old.desk.shown.value front.now }
    ensures desk { (writer.new.desk.shown ≡ writer.old.desk.shown) × (writer.new.log ≡ writer.old.log) × (writer.new.behind ≡ writer.old.behind) × (view writer.new.desk.place ≡ view writer.old.desk.place) }
    ensures snapshot { IsNewcomer writer.old.desk.shown.value front.now result }
{
    for _ in rt.forever() {
        if let Ok(reader) = writer.factory().reader() {
            let mut reader = reader;
            reader.learn::<Learns>(writer.tell::<Tells>());
            return Snapshot::new(reader, front.again());
        }
    }
    unreachable!()
}

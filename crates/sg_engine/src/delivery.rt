ghost use Rattle.std.specs.Prelude.{◌≡◌, ◌↔◌, None, Some, Err, true, false, IfErr, IfNone, IfSome, IsOk, IsSome, IsTrue, OnErr, OnOk};
ghost use Rattle.sg_engine.specs.Shown.{job_in};
ghost use Rattle.sg_engine.specs.Inside.{job_in_work, job_of};
ghost use Rattle.sg_engine.specs.Steps.{IsSameRun, SetsJob};
ghost use Rattle.sg_engine.specs.Strangers.{IsStranger, IsFirstOther, AsksSame, refined, with_result, delivered};

use crate::shared::{Pending, Seat, Shared, Work};
use sg_modes::Session;
use sg_refine::{JobName, RefineDone, RefineJob};
use sg_shape::Shape;
use std::{cmp, mem};

/// Why a result isn't that of the job that a session waits for.
#[derive(Clone, Copy, Debug, PartialEq, Eq)]
pub enum Stranger {
    /// The session waits for no job, or for one of another name.
    Name {
        /// The name of the job that it waits for.
        expected: Option<JobName>,
        /// The name of the job that has come.
        got: JobName,
    },
    /// The job of this name asks another test, or against another shape.
    Asked {
        /// The name of the job that has come.
        got: JobName,
    },
    /// At this place, counted from 0, the candidates differ for the first time, or one of the jobs has no more.
    Item {
        /// The place.
        at: usize,
    },
}

impl Shared {
    /// Takes the result of the job that the session waits for. `Stranger` says why it isn't the result of that job, and
    /// nothing has changed then, so that the right one can still be taken. It takes no memory.
    pub(crate) fn deliver(&mut self, s: Session, done: RefineDone) -> Result<(), Stranger>
        ensures ok { IsOk result ↔ (job_in self.old.jobs s).job ≡ Some done.job }
        ensures stranger { (why : Stranger) → (result ≡ Err why) ↔ IsStranger (job_in self.old.jobs s).job done.job why }
        ensures run { OnOk result (IsSameRun self.old self.new) }
        ensures job { OnOk result (SetsJob s (record { job = None; delivered = true; writes = false }) self.old self.new) }
        ensures err { OnErr result (self.new ≡ self.old) }
    {
        s.in_range();
        done.exact();
        receive(&mut self.seats[s.index()], done)
    }
}

/// Takes the result of the job that the seat waits for, where it is that.
fn receive(seat: &mut Seat, done: RefineDone) -> Result<(), Stranger>
    ensures ok { OnOk result ((job_of seat.old).job ≡ Some done.job) }
    ensures stranger { IfErr result (IsStranger (job_of seat.old).job done.job) }
    ensures seat { OnOk result (seat.new ≡ delivered done seat.old) }
    ensures err { OnErr result (seat.new ≡ seat.old) }
{
    match &mut seat.running {
        None => Err(unasked(done.job())),
        Some(running) => match &mut running.pending {
            None => Err(unasked(done.job())),
            Some(pending) => pending.receive(done),
        },
    }
}

impl Pending {
    /// Takes the result of the job that the statement waits for, where it is that.
    fn receive(&mut self, done: RefineDone) -> Result<(), Stranger>
        ensures ok { OnOk result (job_in_work self.old.work ≡ Some done.job) }
        ensures stranger { IfErr result (IsStranger (job_in_work self.old.work) done.job) }
        ensures pending { OnOk result (self.new ≡ with_result done self.old) }
        ensures err { OnErr result (self.new ≡ self.old) }
    {
        match stranger_at(&self.work, done.job()) {
            Some(why) => Err(why),
            None => {
                refine(&mut self.work, done);
                self.delivered = true;
                Ok(())
            }
        }
    }
}

/// Puts the result in the place of the job that is waited for.
fn refine(work: &mut Work, done: RefineDone)
    requires { IsSome (job_in_work work.old) }
    ensures { work.new ≡ refined done work.old }
{
    match mem::replace(work, Work::Unread) {
        Work::Awaits { found, job: _ } => *work = Work::Refined { found, done },
        _ => unreachable!(),
    }
}

/// Why the job that has come isn't the one that is waited for: `None` exactly where it is.
fn stranger_at(work: &Work, come: &RefineJob) -> Option<Stranger>
    ensures same { IfNone result (job_in_work work.now ≡ Some come.now) }
    ensures other { IfSome result (IsStranger (job_in_work work.now) come.now) }
{
    match work {
        Work::Awaits { found: _, job } => mismatch(job, come),
        _ => Some(unasked(come)),
    }
}

/// That nobody waits for the result of the job.
fn unasked(come: &RefineJob) -> Stranger
    ensures { IsStranger None come.now result }
{
    Stranger::Name {
        expected: None,
        got: come.name(),
    }
}

/// Why the job that has come isn't the one that is waited for: `None` exactly where it is.
fn mismatch(job: &RefineJob, come: &RefineJob) -> Option<Stranger>
    ensures same { IfNone result (job.now ≡ come.now) }
    ensures other { IfSome result (IsStranger (Some job.now) come.now) }
{
    let got = come.name();
    if job.name() != got {
        let expected = Some(job.name());
        return Some(Stranger::Name { expected, got });
    }
    if !asks_same(job, come) {
        return Some(Stranger::Asked { got });
    }
    match first_other(job.as_slice(), come.as_slice()) {
        None => None,
        Some(at) => Some(Stranger::Item { at }),
    }
}

/// Whether both ask the same test, against the same shape.
fn asks_same(job: &RefineJob, come: &RefineJob) -> bool
    ensures { IsTrue result ↔ AsksSame job.now come.now }
{
    job.test() == come.test() && job.query().is_same(come.query())
}

/// The first place at which the items differ, or at which one list has an item and the other none.
fn first_other(these: &[(u32, Shape)], those: &[(u32, Shape)]) -> Option<usize>
    ensures same { IfNone result (these.now ≡ those.now) }
    ensures other { IfSome result (IsFirstOther these.now those.now) }
{
    let both = cmp::min(these.len(), those.len());
    for place in 0..both {
        if !is_same(&these[place], &those[place]) {
            return Some(place);
        }
    }
    if these.len() == those.len() {
        None
    } else {
        Some(both)
    }
}

/// Whether both have the same key and the same shape.
fn is_same(item: &(u32, Shape), other: &(u32, Shape)) -> bool
    ensures { IsTrue result ↔ item.now ≡ other.now }
{
    item.0 == other.0 && item.1.is_same(&other.1)
}

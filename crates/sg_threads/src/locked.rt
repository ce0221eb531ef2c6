ghost use Rattle.std.specs.Prelude.{[], None, ◌≡◌};
ghost use Rattle.sg_script.specs.Plans.{Plan};
ghost use Rattle.sg_run.specs.Runs.{IsRun};
ghost use Rattle.sg_threads.specs.Ends.{is_end, closes};
ghost use Rattle.sg_threads.specs.Runs.{IsRunIn};

use sg_engine::Stranger;
use sg_modes::Session;
use sg_refine::RefineDone;
use sg_run::{Run, Turn};
use sg_shape::{CellJudge, Judge};
use sg_trace::Label;
use std::marker::{Brand, Model, PhantomData};

/// Of which script the run under a lock is. Each call of `run_threads` names its own.
pub(crate) trait Named {
    ghost plan: { Plan };
}

impl Named for Brand {
    ghost plan = { record { settings = record { grid = None; window = 1 }; rows = []; sessions = []; order = [] } };
}

/// What lies under the lock. Whenever the lock is free it is a run of the named script, with a legal trace whose waits
/// have no cycle.
#[derive(Drop)]
pub(crate) struct Locked<
    N: Named,
    J: Judge + Copy + Send + Sync,
    C: CellJudge + Copy + Send + Sync,
> {
    run: Run<J, C>,
    named: PhantomData<N>,
}

impl<N: Named, J: Judge + Copy + Send + Sync, C: CellJudge + Copy + Send + Sync> Model
    for Locked<N, J, C> {
    ghost use Rattle.sg_run.specs.Runs.{RunShown};

    ghost Value = { RunShown };

    ghost use Rattle.sg_threads.specs.Runs.{IsRunIn};

    ghost view = { λ it. it.run };

    ghost invariant = { λ it. IsRunIn N.plan it.run };
}

/// Each of the three steps is one call of the run.
impl<N: Named, J: Judge + Copy + Send + Sync, C: CellJudge + Copy + Send + Sync> Locked<N, J, C> {
    ghost use Rattle.std.specs.Prelude.{◌↔◌, true, false, Some, IsOk, OnOk, OnErr};
    ghost use Rattle.sg_trace.specs.declared.labels.Cause.TheVariants as cause;
    ghost use Rattle.sg_trace.specs.Traces.{Rollback};
    ghost use Rattle.sg_engine.specs.Shown.{is_open_in, job_in};
    ghost use Rattle.sg_engine.specs.Steps.{IsSameRun, SetsJob};
    ghost use Rattle.sg_run.specs.Runs.{has_ended};
    ghost use Rattle.sg_run.specs.Turns.{GoesBy, HasTurned, StaysIn};

    /// A run of the named script.
    pub(crate) fn new(run: Run<J, C>) -> Locked<N, J, C>
        requires { IsRunIn N.plan run }
    {
        Locked {
            run,
            named: PhantomData,
        }
    }

    /// The run, out of the lock again.
    pub(crate) fn into_run(self) -> Run<J, C>
        ensures { IsRunIn N.plan result }
    {
        let Locked { run, named: _ } = self;
        run
    }

    /// One turn of the session.
    #[tactic(auto, using(crate::proofs::Steps::turned_in))]
    pub(crate) fn turn(&mut self, s: Session) -> Turn
        ensures { HasTurned s self.old self.new result }
    {
        self.run.turn(s)
    }

    /// Takes what a job of the session was refined to outside the lock. A stranger changes nothing.
    #[tactic(auto, using(crate::proofs::Steps::handed_in))]
    pub(crate) fn hand_in(&mut self, s: Session, done: RefineDone) -> Result<(), Stranger>
        ensures ok { IsOk result ↔ ((job_in self.old.engine.jobs s).job ≡ Some done.job) }
        ensures run { OnOk result (IsSameRun self.old.engine self.new.engine) }
        ensures job { OnOk result (SetsJob s (record { job = None; delivered = true; writes = false }) self.old.engine self.new.engine) }
        ensures stays { OnOk result (StaysIn self.old self.new) }
        ensures err { OnErr result (self.new ≡ self.old) }
    {
        self.run.hand_in(s, done)
    }

    /// There was no memory to refine a job of the session: where a statement is open, its transaction is rolled back.
    #[tactic(auto, using(crate::proofs::Steps::failed_in))]
    pub(crate) fn hand_failed(&mut self, s: Session)
        ensures open { is_open_in self.old.engine s ≡ true → GoesBy s (Rollback s cause.NoMemory) [] self.old self.new }
        ensures none { is_open_in self.old.engine s ≡ false → self.new ≡ self.old }
    {
        self.run.hand_failed(s)
    }

    /// Whether the session has no transaction left.
    pub(crate) fn ended(&self, s: Session) -> bool
        ensures { result ≡ has_ended self.now s }
    {
        self.run.ended(s)
    }

    /// Whether the trace's last label ended a transaction. Victims come after the label that brought them, so after a
    /// turn this says whether it ended any.
    pub(crate) fn closes(&self) -> bool
        ensures { result ≡ closes self.now.engine.labels }
    {
        match self.run.engine().trace().as_slice().last() {
            None => false,
            Some(label) => is_end(label),
        }
    }
}

/// Whether the label ended a transaction.
fn is_end(label: &Label) -> bool
    ensures { result ≡ is_end label.now }
{
    match label {
        Label::Commit { .. } | Label::Rollback { .. } | Label::Victim { .. } => true,
        Label::Begin { .. }
        | Label::Ask { .. }
        | Label::Take { .. }
        | Label::Put { .. }
        | Label::Wait { .. }
        | Label::Answer { .. } => false,
    }
}

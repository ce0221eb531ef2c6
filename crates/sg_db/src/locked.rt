ghost use Rattle.std.specs.Prelude.{◌≡◌, ◌≤◌, ◌∷◌, [], length, drop};
ghost use Rattle.sg_history.specs.Openings.{Held};
ghost use Rattle.sg_history.specs.Writes.{events_of, history_of, HasWritten, HasMore};
ghost use Rattle.sg_db.specs.Locks.{MayTell};

use sg_engine::{AskBack, Engine, Step, Stranger};
use sg_history::{Counter, Token};
use sg_modes::Session;
use sg_plain::Statement;
use sg_refine::RefineDone;
use sg_shape::{CellJudge, Judge};
use sg_trace::{Cause, Label};
use std::alloc::AllocError;
use std::marker::{Brand, Model, PhantomData};
use std::snapshot::Snapshot;

/// Which table it is. Each call of a program picks it.
pub trait Naming {
    ghost use Rattle.atomic_table.specs.Seated.{TableId};

    ghost table: { TableId };
}

impl Naming for Brand {
    ghost use Rattle.sg_history.specs.Openings.{no_table};

    ghost table = { no_table };
}

/// What lies under the lock: the engine, and the pen. Whenever the lock is free the pen's history is the engine's trace
/// with the statements asked, and is legal and settled.
#[derive(Drop)]
pub(crate) struct Locked<
    N: Naming,
    J: Judge + Copy + Send + Sync,
    C: CellJudge + Copy + Send + Sync,
> {
    engine: Engine<J, C>,
    pen: Token,
    of: PhantomData<N>,
}

impl<N: Naming, J: Judge + Copy + Send + Sync, C: CellJudge + Copy + Send + Sync> Model
    for Locked<N, J, C> {
    ghost use Rattle.sg_history.specs.Writes.{history_of};
    ghost use Rattle.sg_db.specs.Locks.{LockedShown, IsLocked};

    ghost Value = { LockedShown };

    ghost view = { λ it. record { engine = it.engine; history = history_of it.pen.known } };

    ghost invariant = { λ it. IsLocked N.table it.engine it.pen };
}

/// Each call is one of the engine, after which the caller's seat knows what was added to the history.
impl<N: Naming, J: Judge + Copy + Send + Sync, C: CellJudge + Copy + Send + Sync> Locked<N, J, C> {
    ghost use Rattle.std.specs.Prelude.{◌↔◌, false, suc, OnOk, OnErr, IfOk};
    ghost use Rattle.sg_plain.specs.Sat.{IsSoundStatement};
    ghost use Rattle.sg_trace.specs.Traces.{Begin, Ask, Commit, Rollback};
    ghost use Rattle.sg_engine.specs.declared.steps.Step.TheVariants as step;
    ghost use Rattle.sg_engine.specs.Shown.{IsIdle, IsBetween, seat_in, next_statement, is_live_in, is_open_in};
    ghost use Rattle.sg_engine.specs.Steps.{IsSameRun};
    ghost use Rattle.sg_engine.specs.Ends.{MayRollBack};
    ghost use Rattle.sg_db.specs.Locks.{IsLocked, IsSeatOf, HasDone};
    ghost use Rattle.sg_db.specs.Events.{HasMadeStep};

    /// An engine that was just opened, with the pen of its table.
    pub(crate) fn new(engine: Engine<J, C>, pen: Token) -> Locked<N, J, C>
        requires { IsLocked N.table engine pen }
    {
        Locked {
            engine,
            pen,
            of: PhantomData,
        }
    }

    /// The labels of the engine's trace.
    pub(crate) fn labels(&self) -> &[Label]
        ensures { result.now ≡ self.now.engine.labels }
    {
        self.engine.trace().as_slice()
    }

    /// Looks at the history.
    pub(crate) fn look(&mut self, counter: &Counter, token: &mut Token, asked: &Snapshot<Statement>)
        requires counter { counter.now ≡ N.table }
        requires table { token.old.table ≡ N.table }
        requires seat { IsSeatOf token.old.known.session token.old.known }
        ensures table { token.new.table ≡ N.table }
        ensures done { HasDone [] self.old self.new token.old.known token.new.known }
        ensures same { self.new.engine ≡ self.old.engine }
    {
        let from = self.engine.trace().len();
        tell(counter, &self.engine, &mut self.pen, token, from, asked);
    }

    /// Begins a transaction of the session, which has none. `AllocError` is want of memory; nothing has changed then.
    pub(crate) fn begin(
        &mut self,
        counter: &Counter,
        token: &mut Token,
        asked: &Snapshot<Statement>,
        s: Session,
    ) -> Result<(), AllocError>
        requires counter { counter.now ≡ N.table }
        requires table { token.old.table ≡ N.table }
        requires seat { IsSeatOf s token.old.known }
        requires idle { IsIdle self.old.engine s }
        ensures table { token.new.table ≡ N.table }
        ensures ok { OnOk result (HasDone (Begin s (suc (seat_in self.old.engine.seats s).begun) ∷ []) self.old self.new token.old.known token.new.known) }
        ensures err { OnErr result ((self.new ≡ self.old) × (token.new ≡ token.old)) }
    {
        let from = self.engine.trace().len();
        self.engine.begin(s)?;
        tell(counter, &self.engine, &mut self.pen, token, from, asked);
        Ok(())
    }

    /// Asks for a sound statement in the session's transaction, in which none is open. `AllocError` is want of memory;
    /// nothing has changed then.
    pub(crate) fn ask(
        &mut self,
        counter: &Counter,
        token: &mut Token,
        asked: &Snapshot<Statement>,
        s: Session,
        statement: Statement,
    ) -> Result<(), AllocError>
        requires counter { counter.now ≡ N.table }
        requires table { token.old.table ≡ N.table }
        requires seat { IsSeatOf s token.old.known }
        requires between { IsBetween self.old.engine s }
        requires sound { IsSoundStatement statement }
        requires asked { asked.now.value ≡ statement }
        ensures table { token.new.table ≡ N.table }
        ensures ok { OnOk result (HasDone (Ask s (next_statement self.old.engine s) statement ∷ []) self.old self.new token.old.known token.new.known) }
        ensures err { OnErr result ((self.new ≡ self.old) × (token.new ≡ token.old)) }
    {
        let from = self.engine.trace().len();
        match self.engine.ask(s, statement) {
            Err(AskBack { statement: _ }) => return Err(AllocError),
            Ok(()) => {}
        }
        tell(counter, &self.engine, &mut self.pen, token, from, asked);
        Ok(())
    }

    /// One step of the session's open statement. `AllocError` is want of memory; nothing has changed then.
    pub(crate) fn step(
        &mut self,
        counter: &Counter,
        token: &mut Token,
        asked: &Snapshot<Statement>,
        s: Session,
    ) -> Result<Step, AllocError>
        requires counter { counter.now ≡ N.table }
        requires table { token.old.table ≡ N.table }
        requires seat { IsSeatOf s token.old.known }
        ensures table { token.new.table ≡ N.table }
        ensures ok { IfOk result (HasMadeStep s self.old self.new token.old.known token.new.known) }
        ensures idle { IfOk result (λ it. (it ≡ step.Idle) ↔ (is_open_in self.old.engine s ≡ false)) }
        ensures err { OnErr result ((self.new ≡ self.old) × (token.new ≡ token.old)) }
    {
        let from = self.engine.trace().len();
        let step = self.engine.step(s)?;
        tell(counter, &self.engine, &mut self.pen, token, from, asked);
        Ok(step)
    }

    /// Takes what a job of the session was refined to outside the lock. A stranger changes nothing.
    pub(crate) fn deliver(&mut self, s: Session, done: RefineDone) -> Result<(), Stranger>
        ensures run { IsSameRun self.old.engine self.new.engine }
        ensures history { self.new.history ≡ self.old.history }
    {
        self.engine.deliver(s, done)
    }

    /// Commits the session's transaction, in which none is open.
    pub(crate) fn commit(
        &mut self,
        counter: &Counter,
        token: &mut Token,
        asked: &Snapshot<Statement>,
        s: Session,
    )
        requires counter { counter.now ≡ N.table }
        requires table { token.old.table ≡ N.table }
        requires seat { IsSeatOf s token.old.known }
        requires between { IsBetween self.old.engine s }
        ensures table { token.new.table ≡ N.table }
        ensures done { HasDone (Commit s (suc (length self.old.engine.journal)) ∷ []) self.old self.new token.old.known token.new.known }
    {
        let from = self.engine.trace().len();
        self.engine.commit(s);
        tell(counter, &self.engine, &mut self.pen, token, from, asked);
    }

    /// Rolls the session's transaction back.
    pub(crate) fn rollback(
        &mut self,
        counter: &Counter,
        token: &mut Token,
        asked: &Snapshot<Statement>,
        s: Session,
        cause: Cause,
    )
        requires counter { counter.now ≡ N.table }
        requires table { token.old.table ≡ N.table }
        requires seat { IsSeatOf s token.old.known }
        requires may { MayRollBack self.old.engine s cause }
        ensures table { token.new.table ≡ N.table }
        ensures done { HasDone (Rollback s cause ∷ []) self.old self.new token.old.known token.new.known }
    {
        let from = self.engine.trace().len();
        self.engine.rollback(s, cause);
        tell(counter, &self.engine, &mut self.pen, token, from, asked);
    }

    /// Whether the session has a transaction.
    pub(crate) fn is_live(&self, s: Session) -> bool
        ensures { result ≡ is_live_in self.now.engine s }
    {
        self.engine.is_live(s)
    }
}

/// Tells the history and the caller what the engine's trace has from this place on.
fn tell<J: Judge + Copy + Send + Sync, C: CellJudge + Copy + Send + Sync>(
    counter: &Counter,
    engine: &Engine<J, C>,
    pen: &mut Token,
    token: &mut Token,
    from: usize,
    asked: &Snapshot<Statement>,
)
    requires pen_table { pen.old.table ≡ counter.now }
    requires table { token.old.table ≡ counter.now }
    requires place { from ≤ length engine.now.labels }
    requires may { MayTell asked.now.value from engine.now pen.old.known token.old.known }
    ensures pen_table { pen.new.table ≡ pen.old.table }
    ensures table { token.new.table ≡ token.old.table }
    ensures stage { token.old.known.stage ≡ pen.old.known.stage }
    ensures pen { HasMore (events_of asked.now.value (drop from engine.now.labels)) pen.old.known pen.new.known }
    ensures token { HasWritten (events_of asked.now.value (drop from engine.now.labels)) (history_of pen.old.known) token.old.known token.new.known }
{
    let trace = engine.trace();
    trace.countable();
    counter.write(pen, token, &trace.as_slice()[from..], asked);
}

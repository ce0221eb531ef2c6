ghost use Rattle.std.specs.Prelude.{◌≡◌, ℕ};

use crate::locked::{Locked, Naming};
use sg_history::{Counter, Token};
use sg_modes::Session;
use sg_plain::Statement;
use sg_shape::{CellJudge, Judge};
use sg_trace::Cause;
use std::snapshot::Snapshot;

impl<N: Naming, J: Judge + Copy + Send + Sync, C: CellJudge + Copy + Send + Sync> Locked<N, J, C> {
    ghost use Rattle.sg_trace.specs.declared.labels.Cause.TheVariants as cause;
    ghost use Rattle.sg_trace.specs.Traces.{Commit, Rollback};
    ghost use Rattle.sg_history.specs.Staying.{local};
    ghost use Rattle.sg_db.specs.Callers.{IsCaller};
    ghost use Rattle.sg_db.specs.Executions.{IsLiveClosed};
    ghost use Rattle.sg_db.specs.Ends.{Closed};

    /// Commits the session's transaction, in which no statement is open.
    pub(crate) fn end_by_commit(
        &mut self,
        counter: &Counter,
        token: &mut Token,
        asked: &Snapshot<Statement>,
        s: Session,
    )
        requires counter { counter.now ≡ N.table }
        requires table { token.old.table ≡ N.table }
        requires caller { IsCaller s token.old.known }
        requires live { IsLiveClosed (local token.old.known.stage token.old.known.seen s) }
        ensures table { token.new.table ≡ N.table }
        ensures closed { (place : ℕ) × Closed s (Commit s place) token.old.known token.new.known }
    {
        self.look(counter, token, asked);
        self.commit(counter, token, asked, s);
    }

    /// Rolls the session's transaction back, in which no statement is open.
    pub(crate) fn end_by_rollback(
        &mut self,
        counter: &Counter,
        token: &mut Token,
        asked: &Snapshot<Statement>,
        s: Session,
    )
        requires counter { counter.now ≡ N.table }
        requires table { token.old.table ≡ N.table }
        requires caller { IsCaller s token.old.known }
        requires live { IsLiveClosed (local token.old.known.stage token.old.known.seen s) }
        ensures table { token.new.table ≡ N.table }
        ensures closed { Closed s (Rollback s cause.Asked) token.old.known token.new.known }
    {
        self.look(counter, token, asked);
        self.rollback(counter, token, asked, s, Cause::Asked);
    }
}

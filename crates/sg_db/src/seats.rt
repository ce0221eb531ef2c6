ghost use Rattle.std.specs.Prelude.{◌≡◌, length};
ghost use Rattle.sg_history.specs.Openings.{Held};
ghost use Rattle.sg_history.specs.Histories.{IsHistory};
ghost use Rattle.sg_db.specs.Callers.{SeatShown, NoteShown, FrontShown, is_live, IsSeat, seat_shown};

use sg_history::Token;
use sg_modes::Session;
use std::marker::Model;
use std::snapshot::Snapshot;

/// The seat of one caller: a session of the table, what it has seen of the history, and the labels that its own calls
/// made. It goes from thread to thread.
#[derive(Drop)]
pub struct Seat {
    pub(crate) token: Token,
    pub(crate) session: Session,
    pub(crate) live: bool,
}

impl Model for Seat {
    ghost use Rattle.sg_db.specs.Callers.{SeatShown, IsSeat, seat_shown};

    ghost Value = { SeatShown };

    ghost view = { λ s. seat_shown s.session s.token };

    ghost invariant = { λ s. IsSeat s.session s.live s.token.known };
}

impl Seat {
    /// Whether the session has a transaction, as far as the seat has seen.
    pub fn is_live(&self) -> bool
        ensures { result ≡ is_live self.now }
    {
        self.live
    }

    /// The session.
    pub fn session(&self) -> Session
        ensures { result ≡ self.now.session }
    {
        self.session
    }
}

/// What a seat has seen of the history, to be learnt by another.
#[derive(Drop)]
pub struct Note {
    pub(crate) token: Token,
}

impl Model for Note {
    ghost use Rattle.std.specs.Prelude.{◌≡◌, None};
    ghost use Rattle.sg_db.specs.Callers.{NoteShown};

    ghost Value = { NoteShown };

    ghost view = { λ n. record { table = n.token.table; stage = n.token.known.stage; seen = n.token.known.seen } };

    ghost invariant = { λ n. (n.token.known.session ≡ 0) × (n.token.known.pen ≡ None) };
}

/// The history as a call saw it.
pub struct Front {
    labels: u64,
    seen: Snapshot<Token>,
}

impl Model for Front {
    ghost use Rattle.std.specs.Prelude.{◌≡◌, length};
    ghost use Rattle.sg_history.specs.Histories.{IsHistory};
    ghost use Rattle.sg_db.specs.Callers.{FrontShown};

    ghost Value = { FrontShown };

    ghost view = { λ f. record { stage = f.seen.value.known.stage; history = f.seen.value.known.seen } };

    ghost invariant = { λ f. (f.labels ≡ length f.seen.value.known.seen) × IsHistory f.seen.value.known.stage f.seen.value.known.seen };
}

impl Drop for Front {
    fn drop(self) {
        let Self { labels: _, seen } = self;
        drop(seen);
    }
}

impl Front {
    /// What the token has seen.
    pub(crate) fn of(token: &Token) -> Front
        requires { IsHistory token.now.known.stage token.now.known.seen }
        ensures { result ≡ record { stage = token.now.known.stage; history = token.now.known.seen } }
    {
        Front {
            labels: token.len(),
            seen: Snapshot::of(token),
        }
    }

    /// How many labels it has. They are legal.
    pub fn len(&self) -> u64
        ensures length { result ≡ length self.now.history }
        ensures legal { IsHistory self.now.stage self.now.history }
    {
        self.labels
    }
}

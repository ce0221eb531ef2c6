ghost use Rattle.std.specs.Prelude.{◌≡◌, ◌≢◌, ◌+◌, ◌<◌, ◌^◌, None, [], ◌∷◌, IfOk};
ghost use Rattle.sg_trace.specs.Legal.{IsStage};
ghost use Rattle.sg_history.specs.Openings.{stage_of, Held};
ghost use Rattle.sg_history.specs.Views.{first_pen, note_of, pen_of, without_pen, with_pen, with_note, with_seat, new_seat};
ghost use Rattle.sg_history.specs.Steps.{HasPen, Looks, MayAdd, added};
ghost use Rattle.sg_history.specs.Writes.{event_of};

use crate::rules::{Add, Look, Noted, OneHistory, Penned, Seated};
use crate::tokens::Token;
use crate::views::{Opening, View};
use atomic_table::Table;
use sg_plain::Statement;
use sg_trace::Label;
use std::alloc::{AllocError, Global};
use std::marker::{Brand, Model};
use std::snapshot::Snapshot;

/// The event that a step adds to the history. Each call that adds one names its own.
pub trait Adding {
    ghost use Rattle.sg_trace.specs.Traces.{Event};

    ghost event: { Event };
}

impl Adding for Brand {
    ghost use Rattle.sg_trace.specs.Traces.{Event, Begin};

    ghost event = { Begin 0 0 };
}

/// The number of labels of a history, as one word that threads share. Contracts see it as which one it is.
#[derive(Drop)]
pub struct Counter {
    table: Table<(), View, Opening, OneHistory, Global>,
}

impl Model for Counter {
    ghost use Rattle.std.specs.Prelude.{◌≡◌};
    ghost use Rattle.atomic_table.specs.Seated.{TableId};

    ghost Value = { TableId };

    ghost view = { λ c. c.table.shared.table_id };

    ghost invariant = { λ c. c.table.shared.table_id.words ≡ 1 };
}

impl Counter {
    /// A history without labels, and the pen.
    pub fn open(alloc: Global, opening: &Opening) -> Result<(Counter, Token), AllocError>
        requires { IsStage (stage_of opening.now) }
        ensures table { IfOk result (λ both. both.1.table ≡ both.0) }
        ensures pen { IfOk result (λ both. both.1.known ≡ first_pen (stage_of opening.now)) }
    {
        let (table, seat) = Table::of_words(alloc, &[0], opening)?;
        Ok((Counter { table }, Token { seat, labels: 0 }))
    }

    /// The number of labels so far, all of which have been seen then. It waits for nobody.
    pub fn look(&self, token: &mut Token) -> u64
        requires { token.old.table ≡ self.now }
        ensures table { token.new.table ≡ token.old.table }
        ensures looks { Looks token.old.known result token.new.known }
    {
        token.labels = self.table.shared.load::<Look>(&mut token.seat, 0);
        token.labels
    }

    /// Adds one event to the history, that of the label where this is what was asked for, by the one that has the pen.
    pub(crate) fn add<E: Adding>(
        &self,
        token: &mut Token,
        _label: &Label,
        _asked: &Snapshot<Statement>,
    )
        requires event { E.event ≡ event_of _asked.now.value _label.now }
        requires table { token.old.table ≡ self.now }
        requires may { MayAdd token.old.known E.event }
        ensures { token.new ≡ record { table = token.old.table; known = added E.event token.old.known } }
    {
        self.table.shared.fetch_add::<Add<E>>(&mut token.seat, 0, 1);
        token.labels += 1;
    }

    /// A note of what has been seen.
    pub fn note(&self, token: &mut Token) -> Token
        requires { token.old.table ≡ self.now }
        ensures same { token.new ≡ token.old }
        ensures note { result ≡ record { table = token.old.table; known = note_of token.old.known } }
    {
        Token {
            seat: self.table.shared.split_seat::<Noted>(&mut token.seat),
            labels: token.labels,
        }
    }

    /// Keeps what a note has seen, up to the next look.
    pub fn keep(&self, token: &mut Token, note: Token)
        requires table { token.old.table ≡ self.now }
        requires note_table { note.table ≡ self.now }
        requires note { (note.known.session ≡ 0) × (note.known.pen ≡ None) }
        ensures { token.new ≡ record { table = token.old.table; known = with_note token.old.known note.known } }
    {
        let Token { seat, labels: _ } = note;
        self.table.shared.join_seat::<Noted>(&mut token.seat, seat);
    }

    /// Takes the pen.
    pub fn take_pen(&self, token: &mut Token, pen: Token)
        requires table { token.old.table ≡ self.now }
        requires pen_table { pen.table ≡ self.now }
        requires pen { (pen.known.session ≡ 0) × (pen.known.pen ≢ None) }
        ensures { token.new ≡ record { table = token.old.table; known = with_pen token.old.known pen.known } }
    {
        let Token { seat, labels: _ } = pen;
        self.table.shared.join_seat::<Penned>(&mut token.seat, seat);
    }

    /// Gives the pen away.
    pub fn give_pen(&self, token: &mut Token) -> Token
        requires table { token.old.table ≡ self.now }
        requires pen { token.old.known.pen ≢ None }
        ensures rest { token.new ≡ record { table = token.old.table; known = without_pen token.old.known } }
        ensures pen { result ≡ record { table = token.old.table; known = pen_of token.old.known } }
    {
        Token {
            seat: self.table.shared.split_seat::<Penned>(&mut token.seat),
            labels: 0,
        }
    }

    /// A seat for the next session, made by the pen while there are no labels.
    pub fn new_seat(&self, pen: &mut Token) -> Token
        requires table { pen.old.table ≡ self.now }
        requires nobody { pen.old.known.session ≡ 0 }
        requires pen { HasPen pen.old.known pen.old.known.stage [] }
        ensures pen { pen.new ≡ record { table = pen.old.table; known = with_seat pen.old.known } }
        ensures seat { result ≡ record { table = pen.old.table; known = new_seat pen.old.known } }
    {
        Token {
            seat: self.table.shared.split_seat::<Seated>(&mut pen.seat),
            labels: 0,
        }
    }
}

ghost use Rattle.std.specs.Prelude.{◌≡◌, ◌≤◌, ◌-◌, [], IfSome, IfNone, IfOk};
ghost use Rattle.sg_history.specs.Views.{resting};
ghost use Rattle.sg_trace.specs.Legal.{IsStage};
ghost use Rattle.sg_db.specs.Seatings.{IsNext, fresh_seat};

use crate::seats::Seat;
use sg_history::{Counter, Token};
use sg_modes::Session;
use std::alloc::{AllocError, Global};
use std::collections::VecDeque;
use std::marker::Model;
use std::snapshot::Snapshot;

/// The seats that weren't handed out yet.
pub struct Seats {
    seats: VecDeque<Seat>,
    given: u8,
    /// The pen for which they were made, which tells the table.
    pen: Snapshot<Token>,
}

impl Model for Seats {
    ghost use Rattle.std.specs.Prelude.{◌≡◌, ◌≤◌, ◌+◌, length};
    ghost use Rattle.sg_db.specs.Seatings.{SeatsShown, fresh_seats};

    ghost Value = { SeatsShown };

    ghost view = { λ s. record { table = s.pen.value.table; stage = s.pen.value.known.stage; given = s.given; left = length s.seats.items } };

    ghost invariant = { λ s. (s.seats.items ≡ fresh_seats s.pen.value.table s.pen.value.known.stage s.given (length s.seats.items)) × (s.given + length s.seats.items ≤ 64) };
}

impl Drop for Seats {
    fn drop(self) {
        let Self {
            seats,
            given: _,
            pen,
        } = self;
        drop(seats);
        drop(pen);
    }
}

impl Seats {
    /// The next seat: the n-th has session n, and has seen nothing. `None` comes exactly after the last.
    pub fn next(&mut self) -> Option<Seat>
        ensures some { IfSome result (IsNext self.old self.new) }
        ensures table { IfSome result (λ seat. seat.table ≡ self.old.table) }
        ensures same { (self.new.table ≡ self.old.table) × (self.new.stage ≡ self.old.stage) }
        ensures none { IfNone result ((self.old.left ≡ 0) × (self.new ≡ self.old)) }
    {
        let seat = self.seats.pop_front()?;
        self.given += 1;
        Some(seat)
    }

    /// The seats of so many callers, made by the pen of a table that was just opened.
    pub(crate) fn of(
        alloc: Global,
        counter: &Counter,
        pen: &mut Token,
        callers: u8,
    ) -> Result<Seats, AllocError>
        requires most { callers ≤ 64 }
        requires table { pen.old.table ≡ counter.now }
        requires pen { pen.old.known ≡ resting pen.old.known.stage [] 0 }
        requires staged { IsStage pen.old.known.stage }
        ensures table { pen.new.table ≡ pen.old.table }
        ensures pen { IfOk result (λ it. pen.new.known ≡ resting pen.old.known.stage [] callers) }
        ensures seats { IfOk result (λ it. it ≡ record { table = pen.old.table; stage = pen.old.known.stage; given = 0; left = callers }) }
    {
        let mut seats = VecDeque::new(alloc);
        for place in 0..callers {
            let Some(session) = Session::new(place + 1) else {
                unreachable!()
            };
            seats.push_back(seat_for(counter, pen, session))?;
        }
        Ok(Seats {
            seats,
            given: 0,
            pen: Snapshot::of(pen),
        })
    }
}

/// The seat of the session, made by the pen, which has made those of the sessions before.
fn seat_for(counter: &Counter, pen: &mut Token, session: Session) -> Seat
    requires table { pen.old.table ≡ counter.now }
    requires pen { pen.old.known ≡ resting pen.old.known.stage [] (session - 1) }
    requires staged { IsStage pen.old.known.stage }
    ensures pen { pen.new ≡ record { table = pen.old.table; known = resting pen.old.known.stage [] session } }
    ensures seat { result ≡ fresh_seat pen.old.table pen.old.known.stage session }
{
    session.in_range();
    Seat {
        token: counter.new_seat(pen),
        session,
        live: false,
    }
}

ghost use Rattle.std.specs.Prelude.{◌≡◌, ◌≢◌, ◌≤◌, ℕ, List, [], ◌∷◌, ◌++◌, All, Some, option_map, IfSome, OnOk, OnErr, IfErr};
ghost use Rattle.std.specs.Option.{option_copied};
ghost use Rattle.sg_shape.specs.Sound.{IsSound};
ghost use Rattle.sg_plain.specs.Keys.{IsRising};
ghost use Rattle.sg_modes.specs.Priorities.{IsPriority};
ghost use Rattle.sg_plain.specs.Rows.{keys_of};
ghost use Rattle.sg_plain.specs.Sat.{AreSound};
ghost use Rattle.sg_script.specs.Plans.{IsOrderOf, IsSoundSession, IsWindow, above_all, numbers_of, session_at, transaction_at, with_transaction};

use crate::sessions::SessionScript;
use sg_cells::{Grid, Settings};
use sg_modes::{Schedule, Session, Sessions};
use sg_plain::{PlainRows, Transaction};
use sg_shape::{Back, Items, Shape};
use std::alloc::{AllocError, Global};
use std::marker::Model;

/// How the table is searched, the opening rows, the sessions by rising number, and the order of their turns.
#[derive(Debug, Drop)]
pub struct Script {
    settings: Settings,
    rows: PlainRows,
    sessions: Vec<SessionScript>,
    order: Schedule,
}

impl Model for Script {
    ghost use Rattle.sg_script.specs.Plans.{IsPlan, Plan};

    ghost Value = { Plan };

    ghost view = { λ script. record { settings = script.settings; rows = script.rows; sessions = script.sessions.items; order = script.order } };

    ghost invariant = { λ script. IsPlan script.settings script.sessions.items script.order };
}

impl Script {
    /// A script with these settings and opening rows and no sessions. The window is from 1 to 8192. It takes
    /// no memory, and keeps the allocator for its own growth.
    pub fn new(alloc: Global, settings: Settings, rows: PlainRows) -> Script
        requires { IsWindow settings.window }
        ensures settings { result.settings ≡ settings }
        ensures rows { result.rows ≡ rows }
        ensures sessions { result.sessions ≡ [] }
        ensures order { result.order ≡ [] }
    {
        Script {
            settings,
            rows,
            sessions: Vec::new(alloc),
            order: Schedule::new(alloc),
        }
    }

    /// How the table is searched. The window is from 1 to 8192.
    pub fn settings(&self) -> &Settings
        ensures all { result.now ≡ self.now.settings }
        ensures window { IsWindow self.now.settings.window }
    {
        &self.settings
    }

    /// The opening rows.
    pub fn rows(&self) -> &PlainRows
        ensures { result.now ≡ self.now.rows }
    {
        &self.rows
    }

    /// The sessions, by rising number.
    pub fn sessions(&self) -> &[SessionScript]
        ensures all { result.now ≡ self.now.sessions }
        ensures rising { IsRising (numbers_of self.now.sessions) }
        ensures sound { All IsSoundSession self.now.sessions }
    {
        self.sessions.as_slice()
    }

    /// The sessions as a set.
    pub(crate) fn numbers(&self) -> Sessions
        ensures { result ≡ numbers_of self.now.sessions }
    {
        set_of(self.sessions())
    }

    /// The sessions whose turns come one after another, each of the script. It is empty where no turns were told.
    pub fn order(&self) -> &Schedule
        ensures all { result.now ≡ self.now.order }
        ensures turns { IsOrderOf (numbers_of self.now.sessions) self.now.order }
    {
        &self.order
    }

    /// The priority of a session, from -10 to 10: `None` exactly where it isn't in the script.
    pub fn priority_of(&self, session: Session) -> Option<i8>
        ensures priority { result ≡ option_map (λ s. s.priority) (session_at self.now.sessions session) }
        ensures range { IfSome result IsPriority }
    {
        match find(self.sessions(), session) {
            Some(found) => Some(found.priority),
            None => None,
        }
    }

    /// A session's transaction at a place, counted from 0: `None` exactly where the session isn't in the
    /// script, or past its last transaction. Its statements are sound.
    pub fn transaction_of(&self, session: Session, place: usize) -> Option<&Transaction>
        ensures found { option_copied result ≡ transaction_at self.now.sessions session place }
        ensures sound { IfSome result (λ t. AreSound t.now.statements) }
    {
        match find(self.sessions(), session) {
            Some(found) => found.transactions.at(place),
            None => None,
        }
    }

    /// Sets the order of turns, which have to be of sessions of the script.
    pub fn schedule(&mut self, order: Schedule)
        requires { IsOrderOf (numbers_of self.old.sessions) order }
        ensures { self.new ≡ record self.old { order = order } }
    {
        self.order = order;
    }

    /// Puts these turns, which have to be of sessions of the script, after those of the order. Without memory for
    /// them the order may have got the first ones, and all else is as it was.
    pub(crate) fn turns(&mut self, turns: &Schedule) -> Result<(), AllocError>
        requires { IsOrderOf (numbers_of self.old.sessions) turns.now }
        ensures ok { OnOk result (self.new ≡ record self.old { order = self.old.order ++ turns.now }) }
        ensures rest { self.new ≡ record self.old { order = self.new.order } }
    {
        append(&mut self.order, turns)
    }

    /// Gives the table an index over this grid.
    pub(crate) fn grid(&mut self, grid: Grid)
        ensures { self.new ≡ record self.old { settings = record self.old.settings { grid = Some grid } } }
    {
        self.settings.grid = Some(grid);
    }

    /// Sets how many cells a query may have.
    pub(crate) fn window(&mut self, window: u32)
        requires { IsWindow window }
        ensures { self.new ≡ record self.old { settings = record self.old.settings { window = window } } }
    {
        self.settings.window = window;
    }

    /// Puts an opening row last, whose key has to be above all others. Without memory for it the script stays
    /// as it was, and the shape is given up.
    pub(crate) fn row(&mut self, key: u32, shape: Shape) -> Result<(), AllocError>
        requires above { above_all (keys_of self.old.rows) ≤ key }
        requires sound { IsSound shape }
        ensures ok { OnOk result (self.new ≡ record self.old { rows = self.old.rows ++ (key, shape) ∷ [] }) }
        ensures err { OnErr result (self.new ≡ self.old) }
    {
        self.rows.in_order();
        self.rows.push(key, shape)
    }

    /// Adds a session without transactions, whose number has to be above all others, with a priority from -10
    /// to 10. Without memory for it the script stays as it was.
    pub fn session(
        &mut self,
        alloc: Global,
        session: Session,
        priority: i8,
    ) -> Result<(), AllocError>
        requires above { above_all (numbers_of self.old.sessions) ≤ session }
        requires range { IsPriority priority }
        ensures ok { OnOk result (self.new ≡ record self.old {
          sessions = self.old.sessions ++ record { session = session; priority = priority; transactions = [] } ∷ [];
        }) }
        ensures err { OnErr result (self.new ≡ self.old) }
    {
        self.sessions.push(SessionScript {
            session,
            priority,
            transactions: Items::new(alloc),
        })?;
        Ok(())
    }

    /// Adds a transaction to the last session, which has to be there. Without memory for it the script stays
    /// as it was, and the transaction comes back.
    pub fn transaction(&mut self, transaction: Transaction) -> Result<(), Back<Transaction>>
        requires { self.old.sessions ≢ [] }
        ensures ok { OnOk result (self.new ≡ record self.old { sessions = with_transaction transaction self.old.sessions }) }
        ensures err { OnErr result (self.new ≡ self.old) }
        ensures back { IfErr result (λ back. back.item ≡ transaction) }
    {
        transaction.all_sound();
        let last = self.sessions.as_slice().len() - 1;
        self.sessions[last].transactions.push(transaction)
    }
}

/// The session of that number.
fn find(sessions: &[SessionScript], session: Session) -> Option<&SessionScript>
    ensures { option_copied result ≡ session_at sessions.now session }
{
    for found in sessions {
        if found.session == session {
            return Some(found);
        }
    }
    None
}

/// The numbers of the sessions, which rise.
fn set_of(sessions: &[SessionScript]) -> Sessions
    requires { IsRising (numbers_of sessions.now) }
    ensures { result ≡ numbers_of sessions.now }
{
    let mut set = Sessions::none();
    for told in sessions {
        set = set.with(told.session);
    }
    set
}

/// Puts the turns last, or, where memory is wanting, the first ones of them.
fn append(order: &mut Schedule, turns: &Schedule) -> Result<(), AllocError>
    ensures all { OnOk result (order.new ≡ order.old ++ turns.now) }
    ensures each { (numbers : List ℕ) → IsOrderOf numbers order.old → IsOrderOf numbers turns.now → IsOrderOf numbers order.new }
{
    for place in 0..turns.len() {
        if let Some(session) = turns.at(place) {
            order.push(session)?;
        }
    }
    Ok(())
}

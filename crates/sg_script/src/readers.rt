ghost use Rattle.std.specs.Prelude.{◌≡◌, ◌≢◌, ◌+◌, ◌≤◌, [], ◌∷◌, ◌++◌, IfOk, IsSome, OnOk, option_map};
ghost use Rattle.sg_plain.specs.Keys.{IsRising};
ghost use Rattle.sg_plain.specs.Rows.{AreRows, keys_of};
ghost use Rattle.sg_script.specs.Fits.{Fits};
ghost use Rattle.sg_script.specs.Gives.{Gives};
ghost use Rattle.sg_script.specs.Grammar.{Draft, added, closed_at, empty_draft, line_in, place_in, place_of, step, with_line};
ghost use Rattle.sg_modes.specs.Priorities.{IsPriority};
ghost use Rattle.sg_script.specs.Plans.{IsOrderOf, above_all, numbers_of, with_transaction};
ghost use Rattle.sg_plain.specs.Sat.{IsSoundStatement};
ghost use Rattle.sg_shape.specs.Sound.{IsSound};
ghost use Rattle.sg_script.specs.Reads.{Reads};

use crate::faults::{ReadLine, ReadScript, ScriptFault, ScriptKind};
use crate::fields::{first_field, is_skipped};
use crate::phrases::{fields, stands};
use crate::scripts::Script;
use crate::sessions::SessionScript;
use crate::words::{Line, Place, word_of};
use sg_cells::Settings;
use sg_modes::{Schedule, Session};
use sg_plain::{End, PlainRows, Statement, Transaction};
use sg_shape::Shape;
use std::alloc::{AllocError, Global};
use std::marker::Model;

/// How many cells a query may have where no line tells.
const WINDOW: u32 = 64;

/// A script that is being read, line by line.
#[derive(Drop)]
pub struct Reader {
    script: Script,
    /// Whether a line told the window.
    windowed: bool,
    /// Whether a line told turns.
    scheduled: bool,
    /// The transaction that is open, whose end isn't known yet.
    pending: Option<Transaction>,
}

impl Model for Reader {
    ghost use Rattle.std.specs.Prelude.{◌≢◌, [], option_map, IsSome};
    ghost use Rattle.sg_script.specs.Grammar.{Draft};

    ghost Value = { Draft };

    ghost view = { λ r. record { plan = r.script; windowed = r.windowed; scheduled = r.scheduled; pending = option_map (λ t. t.statements) r.pending } };

    ghost invariant = { λ r. IsSome r.pending → r.script.sessions ≢ [] };
}

impl Reader {
    /// Before the first line.
    pub fn new(alloc: Global) -> Reader
        ensures { result ≡ empty_draft }
    {
        let settings = Settings {
            grid: None,
            window: WINDOW,
        };
        Reader {
            script: Script::new(alloc, settings, PlainRows::new(alloc)),
            windowed: false,
            scheduled: false,
            pending: None,
        }
    }

    fn place(&self) -> Place
        ensures { result ≡ place_of self.now }
    {
        if self.pending.is_some() {
            Place::Open
        } else if self.scheduled {
            Place::Turns
        } else if !self.script.sessions().is_empty() {
            Place::Between
        } else if !self.script.rows().as_slice().is_empty() {
            Place::Opening
        } else {
            Place::Front {
                grid: self.script.settings().grid.is_some(),
                window: self.windowed,
            }
        }
    }

    /// What a line says that isn't skipped.
    #[tactic(auto, unfolding(crate::specs::Grammar::line_in))]
    fn line(&self, alloc: Global, text: &[u8]) -> Result<Line, ReadLine>
        ensures gives { Gives (λ l. l) result (line_in self.now text.now) }
        ensures fits { IfOk result (Fits (place_of self.now) self.now.plan) }
    {
        let (first, rest) = first_field(text);
        let Some(word) = word_of(first) else {
            return Err(ReadLine::Fault(ScriptKind::Word));
        };
        let place = self.place();
        stands(place, word)?;
        fields(alloc, &self.script, place, word, rest)
    }

    /// Adds what a line says.
    fn add(&mut self, alloc: Global, line: Line) -> Result<(), AllocError>
        requires { Fits (place_of self.old) self.old.plan line }
        ensures { OnOk result (self.new ≡ with_line self.old line) }
    {
        match line {
            Line::Grid(grid) => {
                self.script.grid(grid);
                Ok(())
            }
            Line::Window(window) => {
                self.script.window(window);
                self.windowed = true;
                Ok(())
            }
            Line::Row(key, shape) => add_row(&mut self.script, key, shape),
            Line::Session(session, priority) => {
                add_session(alloc, &mut self.script, session, priority)
            }
            Line::Begin => {
                self.pending = Some(Transaction::new(alloc, End::Commit));
                Ok(())
            }
            Line::Statement(statement) => add_statement(&mut self.pending, statement),
            Line::End(end) => match self.pending.take() {
                Some(transaction) => add_transaction(&mut self.script, transaction, end),
                None => Ok(()),
            },
            Line::Schedule(turns) => {
                self.scheduled = true;
                add_turns(&mut self.script, &turns)
            }
        }
    }

    /// Reads a line.
    #[tactic(auto, unfolding(crate::specs::Grammar::step))]
    pub fn take(&mut self, alloc: Global, text: &[u8]) -> Result<(), ReadLine>
        ensures { Gives (λ _. self.new) result (step self.old text.now) }
    {
        if is_skipped(text) {
            return Ok(());
        }
        let line = self.line(alloc, text)?;
        match self.add(alloc, line) {
            Ok(()) => Ok(()),
            Err(AllocError) => Err(ReadLine::OutOfMemory),
        }
    }

    /// The script, where no transaction is open after the last line.
    pub fn finish(self, last: u32) -> Result<Script, ReadScript>
        ensures { Reads result (closed_at last self.plan self.pending) }
    {
        match self.pending {
            None => Ok(self.script),
            Some(_) => Err(ReadScript::Fault(ScriptFault {
                line: last,
                kind: ScriptKind::NotClosed,
            })),
        }
    }
}

fn add_row(script: &mut Script, key: u32, shape: Shape) -> Result<(), AllocError>
    requires above { above_all (keys_of script.old.rows) ≤ key }
    requires sound { IsSound shape }
    ensures ok { OnOk result (script.new ≡ record script.old { rows = script.old.rows ++ (key, shape) ∷ [] }) }
    ensures kept { script.old.sessions ≢ [] → script.new.sessions ≢ [] }
{
    script.row(key, shape)
}

fn add_session(
    alloc: Global,
    script: &mut Script,
    session: Session,
    priority: i8,
) -> Result<(), AllocError>
    requires above { above_all (numbers_of script.old.sessions) ≤ session }
    requires range { IsPriority priority }
    ensures ok { OnOk result (script.new ≡ record script.old {
      sessions = script.old.sessions ++ record { session = session; priority = priority; transactions = [] } ∷ [];
    }) }
    ensures kept { script.old.sessions ≢ [] → script.new.sessions ≢ [] }
{
    script.session(alloc, session, priority)
}

fn add_turns(script: &mut Script, turns: &Schedule) -> Result<(), AllocError>
    requires { IsOrderOf (numbers_of script.old.sessions) turns.now }
    ensures ok { OnOk result (script.new ≡ record script.old { order = script.old.order ++ turns.now }) }
    ensures kept { script.old.sessions ≢ [] → script.new.sessions ≢ [] }
{
    script.turns(turns)
}

fn add_statement(pending: &mut Option<Transaction>, statement: Statement) -> Result<(), AllocError>
    requires { IsSoundStatement statement }
    ensures ok { OnOk result (option_map (λ t. t.statements) pending.new ≡ added (option_map (λ t. t.statements) pending.old) statement) }
    ensures kept { IsSome pending.new → IsSome pending.old }
{
    match pending.take() {
        Some(mut transaction) => {
            transaction.push(statement)?;
            *pending = Some(transaction);
            Ok(())
        }
        None => Ok(()),
    }
}

fn add_transaction(
    script: &mut Script,
    transaction: Transaction,
    end: End,
) -> Result<(), AllocError>
    requires { script.old.sessions ≢ [] }
    ensures { OnOk result (script.new ≡ record script.old {
      sessions = with_transaction (record transaction { end = end }) script.old.sessions;
    }) }
{
    script.transaction(transaction.with_end(end))?;
    Ok(())
}

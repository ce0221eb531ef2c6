ghost use Rattle.std.specs.Prelude.{◌≡◌, Contains, IfOk};
ghost use Rattle.sg_script.specs.declared.words.Place.{Place};
ghost use Rattle.sg_plain.specs.Keys.{IsRising};
ghost use Rattle.sg_script.specs.Fields.{words};
ghost use Rattle.sg_script.specs.Fits.{Fits};
ghost use Rattle.sg_script.specs.Gives.{Gives};
ghost use Rattle.sg_script.specs.Grammar.{one_of, schedule_line, turn, turns};
ghost use Rattle.sg_script.specs.Plans.{IsOrderOf, numbers_of};

use crate::faults::{ReadLine, ScriptKind};
use crate::fields::next_field;
use crate::numbers::number;
use crate::scripts::Script;
use crate::texts::session_from;
use crate::words::Line;
use sg_modes::{Schedule, Session, Sessions};
use std::alloc::{AllocError, Global};

/// The session, where it is one of these.
fn one_of(told: Sessions, session: Session) -> Result<Session, ReadLine>
    ensures gives { Gives (λ s. s) result (one_of told session) }
    ensures within { IfOk result (λ s. Contains told s) }
{
    if told.has(session) {
        Ok(session)
    } else {
        Err(ReadLine::Fault(ScriptKind::Session))
    }
}

/// The session of a turn, by the number that a field spells.
#[tactic(auto, unfolding(crate::specs::Grammar::turn))]
fn turn(told: Sessions, field: &[u8]) -> Result<Session, ReadLine>
    ensures gives { Gives (λ s. s) result (turn told field.now) }
    ensures within { IfOk result (λ s. Contains told s) }
{
    let session = session_from(0, number(field))?;
    one_of(told, session)
}

/// The sessions that the rest of a line names, one after another.
fn turns(alloc: Global, told: Sessions, text: &[u8]) -> Result<Schedule, ReadLine>
    ensures gives { Gives (λ ns. ns) result (turns told (words text.now)) }
    ensures within { IfOk result (IsOrderOf told) }
{
    let mut turns = Schedule::new(alloc);
    let mut rest = text;
    'fields: while let Some((field, after)) = next_field(rest) {
        let session = turn(told, field)?;
        match turns.push(session) {
            Ok(()) => rest = after,
            Err(AllocError) => return Err(ReadLine::OutOfMemory),
        }
    }
    Ok(turns)
}

/// The rest of a line that tells turns, which have to be of the script's sessions.
#[tactic(auto, unfolding(crate::specs::Grammar::schedule_line))]
pub fn schedule_line(alloc: Global, script: &Script, text: &[u8]) -> Result<Line, ReadLine>
    ensures gives { Gives (λ l. l) result (schedule_line (numbers_of script.now.sessions) text.now) }
    ensures fits { (p : Place) → IfOk result (Fits p script.now) }
{
    let turns = turns(alloc, script.numbers(), text)?;
    Ok(Line::Schedule(turns))
}

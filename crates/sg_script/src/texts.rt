ghost use Rattle.std.specs.Prelude.{◌≡◌, ◌≤◌, IfOk};
ghost use Rattle.sg_shape.specs.Sound.{IsSound};
ghost use Rattle.sg_modes.specs.Priorities.{IsPriority};
ghost use Rattle.sg_plain.specs.Sat.{IsSoundTest};
ghost use Rattle.sg_script.specs.Gives.{Gives};
ghost use Rattle.sg_script.specs.Grammar.{bound_from, bound_in, comparison, distance, expect, key, key_from, key_in, natural, nothing, priority, priority_from, relation_of, session_from, session_in, session_number, shape, test_of};

use crate::faults::{ReadLine, ScriptKind};
use crate::fields::{first_field, skip_blanks};
use crate::numbers::number;
use sg_modes::Session;
use sg_plain::Test;
use sg_shape::{Pred, Shape};
use sg_wkt::{ReadShape, read_wkt};
use std::alloc::Global;

/// Passes over a word that must stand at the front, and gives the text after it.
#[tactic(auto, unfolding(crate::specs::Grammar::expect))]
fn expect<'a>(name: &[u8], text: &'a [u8]) -> Result<&'a [u8], ReadLine>
    ensures { Gives (λ rest. rest.now) result (expect name.now text.now) }
{
    let (field, rest) = first_field(text);
    if field == name {
        Ok(rest)
    } else {
        Err(ReadLine::Fault(ScriptKind::Word))
    }
}

/// Passes where there is no further field.
#[tactic(auto, unfolding(crate::specs::Grammar::nothing))]
pub fn nothing(text: &[u8]) -> Result<(), ReadLine>
    ensures { Gives (λ _. tt) result (nothing text.now) }
{
    let (field, _) = first_field(text);
    if field == b"".as_slice() {
        Ok(())
    } else {
        Err(ReadLine::Fault(ScriptKind::Word))
    }
}

/// A number that isn't negative.
pub fn natural(number: i64) -> Option<u64>
    ensures { result ≡ natural number }
{
    if number < 0 {
        None
    } else {
        Some(number as u64)
    }
}

fn key_in(least: u64, number: Option<u64>) -> Result<u32, ReadLine>
    ensures gives { Gives (λ k. k) result (key_in least number) }
    ensures above { IfOk result (λ k. least ≤ k) }
{
    match number {
        Some(n) if least <= n && n <= 4_294_967_295 => Ok(n as u32),
        _ => Err(ReadLine::Fault(ScriptKind::Number)),
    }
}

fn key_from(least: u64, number: Option<i64>) -> Result<u32, ReadLine>
    ensures gives { Gives (λ k. k) result (key_from least number) }
    ensures above { IfOk result (λ k. least ≤ k) }
{
    match number {
        Some(n) => key_in(least, natural(n)),
        None => Err(ReadLine::Fault(ScriptKind::Number)),
    }
}

/// A row's key, at least this, and the text after it.
#[tactic(auto, unfolding(crate::specs::Grammar::key))]
pub fn key(least: u64, text: &[u8]) -> Result<(u32, &[u8]), ReadLine>
    ensures gives { Gives (λ r. (r.0, r.1.now)) result (key least text.now) }
    ensures above { IfOk result (λ r. least ≤ r.0) }
{
    let (field, rest) = first_field(text);
    match key_from(least, number(field)) {
        Ok(key) => Ok((key, rest)),
        Err(fault) => Err(fault),
    }
}

fn session_in(least: u64, number: Option<u64>) -> Result<Session, ReadLine>
    ensures gives { Gives (λ s. s) result (session_in least number) }
    ensures above { IfOk result (λ s. least ≤ s) }
{
    match number {
        Some(n) if least <= n && n <= 64 => match Session::new(n as u8) {
            Some(session) => Ok(session),
            None => Err(ReadLine::Fault(ScriptKind::Session)),
        },
        _ => Err(ReadLine::Fault(ScriptKind::Session)),
    }
}

/// The session of that number, which has to be at least this.
pub fn session_from(least: u64, number: Option<i64>) -> Result<Session, ReadLine>
    ensures gives { Gives (λ s. s) result (session_from least number) }
    ensures above { IfOk result (λ s. least ≤ s) }
{
    match number {
        Some(n) => session_in(least, natural(n)),
        None => Err(ReadLine::Fault(ScriptKind::Number)),
    }
}

/// A session's number, at least this, and the text after it.
#[tactic(auto, unfolding(crate::specs::Grammar::session_number))]
pub fn session_number(least: u64, text: &[u8]) -> Result<(Session, &[u8]), ReadLine>
    ensures gives { Gives (λ r. (r.0, r.1.now)) result (session_number least text.now) }
    ensures above { IfOk result (λ r. least ≤ r.0) }
{
    let (field, rest) = first_field(text);
    match session_from(least, number(field)) {
        Ok(session) => Ok((session, rest)),
        Err(fault) => Err(fault),
    }
}

fn priority_from(number: Option<i64>) -> Result<i8, ReadLine>
    ensures gives { Gives (λ p. p) result (priority_from number) }
    ensures range { IfOk result IsPriority }
{
    match number {
        Some(n) if -10 <= n && n <= 10 => Ok(n as i8),
        _ => Err(ReadLine::Fault(ScriptKind::Number)),
    }
}

/// What ends a session's line: nothing, or its priority.
#[tactic(auto, unfolding(crate::specs::Grammar::priority))]
pub fn priority(text: &[u8]) -> Result<i8, ReadLine>
    ensures gives { Gives (λ p. p) result (priority text.now) }
    ensures range { IfOk result IsPriority }
{
    let (field, _) = first_field(text);
    if field == b"".as_slice() {
        return Ok(0);
    }
    let rest = expect(b"priority", text)?;
    let (field, rest) = first_field(rest);
    let priority = priority_from(number(field))?;
    nothing(rest)?;
    Ok(priority)
}

/// The shape that the rest of the line spells.
#[tactic(auto, unfolding(crate::specs::Grammar::shape))]
pub fn shape(alloc: Global, text: &[u8]) -> Result<Shape, ReadLine>
    ensures gives { Gives (λ s. s) result (shape text.now) }
    ensures sound { IfOk result IsSound }
{
    match read_wkt(alloc, skip_blanks(text)) {
        Ok(shape) => Ok(shape),
        Err(ReadShape::Fault(fault)) => Err(ReadLine::Fault(ScriptKind::Shape(fault))),
        Err(ReadShape::OutOfMemory) => Err(ReadLine::OutOfMemory),
    }
}

/// The relation that a word names.
fn relation_of(name: &[u8]) -> Option<Pred>
    ensures { result ≡ relation_of name.now }
{
    if name == b"intersects".as_slice() {
        return Some(Pred::Intersects);
    }
    if name == b"contains".as_slice() {
        return Some(Pred::Contains);
    }
    if name == b"within".as_slice() {
        return Some(Pred::Within);
    }
    if name == b"equals".as_slice() {
        return Some(Pred::Equals);
    }
    if name == b"touches".as_slice() {
        return Some(Pred::Touches);
    }
    None
}

fn bound_in(number: Option<u64>) -> Result<u32, ReadLine>
    ensures gives { Gives (λ n. n) result (bound_in number) }
    ensures below { IfOk result (λ n. n ≤ 64000000) }
{
    match number {
        Some(n) if n <= 64_000_000 => Ok(n as u32),
        _ => Err(ReadLine::Fault(ScriptKind::Number)),
    }
}

fn bound_from(number: Option<i64>) -> Result<u32, ReadLine>
    ensures gives { Gives (λ n. n) result (bound_from number) }
    ensures below { IfOk result (λ n. n ≤ 64000000) }
{
    match number {
        Some(n) => bound_in(natural(n)),
        None => Err(ReadLine::Fault(ScriptKind::Number)),
    }
}

/// Whether the bound itself is left out, and the text after the comparison.
#[tactic(auto, unfolding(crate::specs::Grammar::comparison))]
fn comparison(text: &[u8]) -> Result<(bool, &[u8]), ReadLine>
    ensures { Gives (λ r. (r.0, r.1.now)) result (comparison text.now) }
{
    let (field, rest) = first_field(text);
    if field == b"<".as_slice() {
        return Ok((true, rest));
    }
    if field == b"<=".as_slice() {
        return Ok((false, rest));
    }
    Err(ReadLine::Fault(ScriptKind::Word))
}

/// A comparison and a bound of distances, and the text after them.
#[tactic(auto, unfolding(crate::specs::Grammar::distance))]
fn distance(text: &[u8]) -> Result<(Test, &[u8]), ReadLine>
    ensures gives { Gives (λ r. (r.0, r.1.now)) result (distance text.now) }
    ensures sound { IfOk result (λ r. IsSoundTest r.0) }
{
    match comparison(text) {
        Ok((strict, rest)) => {
            let (field, rest) = first_field(rest);
            match bound_from(number(field)) {
                Ok(bound) => Ok((Test::Near { bound, strict }, rest)),
                Err(fault) => Err(fault),
            }
        }
        Err(fault) => Err(fault),
    }
}

/// A test of rows against a shape, and the text after it.
#[tactic(auto, unfolding(crate::specs::Grammar::test_of))]
pub fn test_of(text: &[u8]) -> Result<(Test, &[u8]), ReadLine>
    ensures gives { Gives (λ r. (r.0, r.1.now)) result (test_of text.now) }
    ensures sound { IfOk result (λ r. IsSoundTest r.0) }
{
    let (field, rest) = first_field(text);
    match relation_of(field) {
        Some(pred) => Ok((Test::Relate(pred), rest)),
        None => {
            if field == b"distance".as_slice() {
                return distance(rest);
            }
            Err(ReadLine::Fault(ScriptKind::Word))
        }
    }
}

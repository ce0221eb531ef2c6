//! The smallest productions of the grammar.

ghost use Rattle.std.specs.Prelude.{◌≡◌, [], ◌∷◌, MatchOption, bytes_eq};
ghost use Rattle.sg_wkt.specs.Cursors.{Gives, left, seen};
ghost use Rattle.sg_wkt.specs.Grammar.{after_empty, is_word, mark, number, separator, spot};

use crate::faults::{WktFault, WktKind};
use crate::numbers::coordinate;
use crate::tokens::{Cursor, Span};
use sg_shape::Spot;

#[tactic(auto, unfolding(crate::specs::Grammar::spot))]
pub fn spot(tokens: Cursor) -> Result<(Spot, Cursor), WktFault>
    ensures { Gives (λ s. (s.0, left s.1)) result (spot (left tokens.entry)) }
{
    let (x, rest) = number(tokens)?;
    let (y, rest) = number(rest)?;
    Ok((Spot { x, y }, rest))
}

#[tactic(auto, unfolding(crate::specs::Grammar::number))]
fn number(tokens: Cursor) -> Result<(i32, Cursor), WktFault>
    ensures { Gives (λ x. (x.0, left x.1)) result (number (left tokens.entry)) }
{
    let (token, rest) = tokens.first()?;
    match coordinate(token.bytes) {
        Ok(value) => Ok((value, rest)),
        Err(kind) => Err(token.fault(kind)),
    }
}

/// What stands after a bracket or a comma, which must be next.
#[tactic(auto, unfolding(crate::specs::Grammar::mark))]
pub fn mark(byte: u8, tokens: Cursor) -> Result<Cursor, WktFault>
    ensures { Gives left result (mark byte (left tokens.entry)) }
{
    let (token, rest) = tokens.first()?;
    if is_one(byte, token.bytes) {
        Ok(rest)
    } else {
        Err(token.fault(WktKind::Punctuation))
    }
}

/// A comma or a closing bracket, one of which must be next, and what stands after it.
#[tactic(auto, unfolding(crate::specs::Grammar::separator))]
pub fn separator(tokens: Cursor) -> Result<(Span, Cursor), WktFault>
    ensures { Gives (λ r. (seen r.0, left r.1)) result (separator (left tokens.entry)) }
{
    let (token, rest) = tokens.first()?;
    if is_one(b',', token.bytes) || is_one(b')', token.bytes) {
        Ok((token, rest))
    } else {
        Err(token.fault(WktKind::Punctuation))
    }
}

/// What stands after `EMPTY`, where that is next.
pub fn after_empty(tokens: Cursor) -> Option<Cursor>
    ensures { MatchOption result (after_empty (left tokens.entry) ≡ None) (λ rest. after_empty (left tokens.entry) ≡ Some (left rest)) }
{
    let (token, rest) = tokens.token()?;
    if is_word(b"EMPTY", token.bytes) {
        Some(rest)
    } else {
        None
    }
}

pub fn is_word(word: &[u8], token: &[u8]) -> bool
    ensures { result ≡ is_word word.now token.now }
{
    token.eq_ignore_ascii_case(word)
}

pub fn is_one(byte: u8, token: &[u8]) -> bool
    ensures { result ≡ bytes_eq token.now (byte ∷ []) }
{
    match token {
        [only] => *only == byte,
        _ => false,
    }
}

ghost use Rattle.std.specs.Prelude.{◌≡◌, ◌++◌, OnOk, All, codes};
ghost use Rattle.std.specs.Fmt.{decimal};
ghost use Rattle.std.specs.List.{flat_map};
ghost use Rattle.sg_shape.specs.Sound.{IsSound};
ghost use Rattle.sg_modes.specs.Sessions.{IsSession, AreSessions};
ghost use Rattle.sg_plain.specs.Sat.{IsSoundAnswer, AreSoundAnswers};
ghost use Rattle.sg_texts.specs.Laws.{AreKeys, IsAnswer, IsEnding, IsOther, IsRow};
ghost use Rattle.sg_texts.specs.Texts.{answer_line, answer_text, spaced, keys_text, cycle_text, ending_text, ending_tail, other_text, owner_text, count_line, row_line, rows_text};

use crate::others::{Ending, Other};
use itoa::Buffer;
use sg_modes::{Session, Sessions};
use sg_plain::{Answer, KeyList};
use sg_shape::Shape;
use sg_wkt::write_wkt;
use std::alloc::{AllocError, Global};

pub(crate) fn append_owner(
    session: Session,
    transaction: u64,
    out: &mut Vec<u8>,
) -> Result<(), AllocError>
    ensures text { OnOk result (out.new.items ≡ out.old.items ++ owner_text session transaction) }
    ensures fits { OnOk result (IsSession session) }
{
    out.extend_from_slice(b" session ")?;
    append_number(session.number() as u64, out)?;
    out.extend_from_slice(b" transaction ")?;
    append_number(transaction, out)
}

pub(crate) fn append_answers(
    alloc: Global,
    answers: &[Answer],
    out: &mut Vec<u8>,
) -> Result<(), AllocError>
    requires { AreSoundAnswers answers.now }
    ensures text { OnOk result (out.new.items ≡ out.old.items ++ flat_map answer_line answers.now) }
    ensures fits { OnOk result (All IsAnswer answers.now) }
{
    for answer in answers {
        append_answer(alloc, answer, out)?;
    }
    Ok(())
}

fn append_answer(alloc: Global, answer: &Answer, out: &mut Vec<u8>) -> Result<(), AllocError>
    requires { IsSoundAnswer answer.now }
    ensures text { OnOk result (out.new.items ≡ out.old.items ++ answer_line answer.now) }
    ensures fits { OnOk result (IsAnswer answer.now) }
{
    append_indent(out)?;
    append_answer_text(alloc, answer, out)?;
    out.extend_from_slice(b"\n")
}

pub(crate) fn append_answer_text(
    alloc: Global,
    answer: &Answer,
    out: &mut Vec<u8>,
) -> Result<(), AllocError>
    requires { IsSoundAnswer answer.now }
    ensures text { OnOk result (out.new.items ≡ out.old.items ++ answer_text answer.now) }
    ensures fits { OnOk result (IsAnswer answer.now) }
{
    match answer {
        Answer::Inserted => out.extend_from_slice(b"inserted"),
        Answer::Duplicate => out.extend_from_slice(b"duplicate"),
        Answer::Done => out.extend_from_slice(b"done"),
        Answer::Missing => out.extend_from_slice(b"missing"),
        Answer::Absent => out.extend_from_slice(b"none"),
        Answer::Found(shape) => append_found(alloc, shape, out),
        Answer::Keys(keys) => append_word_and_keys(b"keys", keys.as_slice(), out),
        Answer::Deleted(keys) => append_word_and_keys(b"deleted", keys.as_slice(), out),
        Answer::Plan {
            candidates,
            sure,
            refined,
            keys,
        } => append_plan(*candidates, *sure, *refined, keys, out),
    }
}

fn append_found(alloc: Global, shape: &Shape, out: &mut Vec<u8>) -> Result<(), AllocError>
    requires { IsSound shape.now }
    ensures { OnOk result (out.new.items ≡ out.old.items ++ answer_text (Answer.Found shape.now)) }
{
    out.extend_from_slice(b"shape ")?;
    write_wkt(alloc, shape, out)
}

fn append_word_and_keys(word: &[u8], keys: &[u32], out: &mut Vec<u8>) -> Result<(), AllocError>
    ensures text { OnOk result (out.new.items ≡ out.old.items ++ (word.now ++ keys_text keys.now)) }
    ensures fits { OnOk result (AreKeys keys.now) }
{
    out.extend_from_slice(word)?;
    append_keys(keys, out)
}

/// Appends each key after a space.
fn append_keys(keys: &[u32], out: &mut Vec<u8>) -> Result<(), AllocError>
    ensures text { OnOk result (out.new.items ≡ out.old.items ++ keys_text keys.now) }
    ensures fits { OnOk result (AreKeys keys.now) }
{
    for key in keys {
        append_spaced(*key as u64, out)?;
    }
    Ok(())
}

pub(crate) fn append_spaced(number: u64, out: &mut Vec<u8>) -> Result<(), AllocError>
    ensures { OnOk result (out.new.items ≡ out.old.items ++ spaced number) }
{
    out.extend_from_slice(b" ")?;
    append_number(number, out)
}

fn append_plan(
    candidates: u64,
    sure: u64,
    refined: u64,
    keys: &KeyList,
    out: &mut Vec<u8>,
) -> Result<(), AllocError>
    ensures text { OnOk result (out.new.items ≡ out.old.items ++ answer_text (Answer.Plan candidates sure refined keys.now)) }
    ensures fits { OnOk result (IsAnswer (Answer.Plan candidates sure refined keys.now)) }
{
    out.extend_from_slice(b"plan")?;
    append_spaced(candidates, out)?;
    append_spaced(sure, out)?;
    append_spaced(refined, out)?;
    append_word_and_keys(b" keys", keys.as_slice(), out)
}

pub(crate) fn append_others(others: &[Other], out: &mut Vec<u8>) -> Result<(), AllocError>
    ensures text { OnOk result (out.new.items ≡ out.old.items ++ flat_map other_text others.now) }
    ensures fits { OnOk result (All IsOther others.now) }
{
    for other in others {
        append_other(other, out)?;
    }
    Ok(())
}

fn append_other(other: &Other, out: &mut Vec<u8>) -> Result<(), AllocError>
    ensures text { OnOk result (out.new.items ≡ out.old.items ++ other_text other.now) }
    ensures fits { OnOk result (IsOther other.now) }
{
    out.extend_from_slice(ending_text(other.ending))?;
    append_owner(other.session, other.transaction, out)?;
    append_ending_tail(other.ending, out)?;
    out.extend_from_slice(b"\n")
}

fn append_ending_tail(ending: Ending, out: &mut Vec<u8>) -> Result<(), AllocError>
    ensures text { OnOk result (out.new.items ≡ out.old.items ++ ending_tail ending) }
    ensures fits { OnOk result (IsEnding ending) }
{
    match ending {
        Ending::RolledBack | Ending::NoMemory => Ok(()),
        Ending::Victim { cycle } => append_cycle(cycle, out),
    }
}

/// Appends the sessions of a cycle of waits.
pub(crate) fn append_cycle(cycle: Sessions, out: &mut Vec<u8>) -> Result<(), AllocError>
    ensures text { OnOk result (out.new.items ≡ out.old.items ++ cycle_text cycle) }
    ensures fits { OnOk result (AreSessions cycle) }
{
    out.extend_from_slice(b" cycle")?;
    append_sessions(cycle, out)
}

/// Appends each of the sessions after a space, by rising number.
pub(crate) fn append_sessions(sessions: Sessions, out: &mut Vec<u8>) -> Result<(), AllocError>
    ensures text { OnOk result (out.new.items ≡ out.old.items ++ flat_map spaced sessions) }
    ensures fits { OnOk result (AreSessions sessions) }
{
    let mut rest = sessions;
    while let Some(session) = rest.pop_first() {
        append_spaced(session.number() as u64, out)?;
    }
    Ok(())
}

fn ending_text(ending: Ending) -> &'static [u8]
    ensures { result.now ≡ ending_text ending }
{
    match ending {
        Ending::RolledBack => b"rolled back",
        Ending::Victim { .. } => b"victim",
        Ending::NoMemory => b"no memory",
    }
}

pub(crate) fn append_rows(
    alloc: Global,
    rows: &[(u32, Shape)],
    out: &mut Vec<u8>,
) -> Result<(), AllocError>
    requires { All (λ row. IsSound row.1) rows.now }
    ensures text { OnOk result (out.new.items ≡ out.old.items ++ rows_text rows.now) }
    ensures fits { OnOk result (All IsRow rows.now) }
{
    append_count(b"rows ", rows.len() as u64, out)?;
    append_each_row(alloc, rows, out)
}

/// Appends a line with the word for the things that are counted, and how many there are.
pub(crate) fn append_count(things: &[u8], count: u64, out: &mut Vec<u8>) -> Result<(), AllocError>
    ensures { OnOk result (out.new.items ≡ out.old.items ++ count_line things.now count) }
{
    out.extend_from_slice(things)?;
    append_number(count, out)?;
    out.extend_from_slice(b"\n")
}

fn append_each_row(
    alloc: Global,
    rows: &[(u32, Shape)],
    out: &mut Vec<u8>,
) -> Result<(), AllocError>
    requires { All (λ row. IsSound row.1) rows.now }
    ensures text { OnOk result (out.new.items ≡ out.old.items ++ flat_map row_line rows.now) }
    ensures fits { OnOk result (All IsRow rows.now) }
{
    for row in rows {
        append_row(alloc, row, out)?;
    }
    Ok(())
}

fn append_row(alloc: Global, row: &(u32, Shape), out: &mut Vec<u8>) -> Result<(), AllocError>
    requires { IsSound row.now.1 }
    ensures text { OnOk result (out.new.items ≡ out.old.items ++ row_line row.now) }
    ensures fits { OnOk result (IsRow row.now) }
{
    append_indent(out)?;
    append_number(row.0 as u64, out)?;
    out.extend_from_slice(b" ")?;
    write_wkt(alloc, &row.1, out)?;
    out.extend_from_slice(b"\n")
}

pub(crate) fn append_indent(out: &mut Vec<u8>) -> Result<(), AllocError>
    ensures { OnOk result (out.new.items ≡ out.old.items ++ codes "  ") }
{
    out.extend_from_slice(b"  ")
}

pub(crate) fn append_number(number: u64, out: &mut Vec<u8>) -> Result<(), AllocError>
    ensures { OnOk result (out.new.items ≡ out.old.items ++ decimal number) }
{
    let mut buffer = Buffer::new();
    out.extend_from_slice(buffer.format(number).as_bytes())
}

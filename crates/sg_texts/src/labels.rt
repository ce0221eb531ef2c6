ghost use Rattle.std.specs.Prelude.{◌≡◌, ◌++◌, OnOk, All, codes};
ghost use Rattle.std.specs.Fmt.{decimal};
ghost use Rattle.std.specs.List.{flat_map};
ghost use Rattle.sg_modes.specs.Sessions.{AreSessions};
ghost use Rattle.sg_plain.specs.Sat.{IsSoundAnswer};
ghost use Rattle.sg_texts.specs.Fitting.{IsDeed, IsKey, IsLabel};
ghost use Rattle.sg_texts.specs.Labels.{cause_text, deed_text, label_line, labels_text, lock_text, owner_of};
ghost use Rattle.sg_texts.specs.Laws.{IsAnswer};
ghost use Rattle.sg_texts.specs.Sound.{IsSoundLabel};
ghost use Rattle.sg_texts.specs.Texts.{answer_text, cycle_text, spaced};

use crate::keys::append_lock;
use crate::texts::{
    append_answer_text, append_count, append_cycle, append_indent, append_number, append_sessions,
};
use sg_cells::Key;
use sg_modes::{Mode, Session, Sessions};
use sg_plain::Answer;
use sg_trace::{Cause, Label};
use std::alloc::{AllocError, Global};

/// Appends how many labels there are, and a line for each: after two spaces its session, and what it did.
pub(crate) fn append_labels(
    alloc: Global,
    labels: &[Label],
    out: &mut Vec<u8>,
) -> Result<(), AllocError>
    requires { All IsSoundLabel labels.now }
    ensures text { OnOk result (out.new.items ≡ out.old.items ++ labels_text labels.now) }
    ensures fits { OnOk result (All IsLabel labels.now) }
{
    append_count(b"labels ", labels.len() as u64, out)?;
    append_each_label(alloc, labels, out)
}

fn append_each_label(alloc: Global, labels: &[Label], out: &mut Vec<u8>) -> Result<(), AllocError>
    requires { All IsSoundLabel labels.now }
    ensures text { OnOk result (out.new.items ≡ out.old.items ++ flat_map label_line labels.now) }
    ensures fits { OnOk result (All IsLabel labels.now) }
{
    for label in labels {
        append_label(alloc, label, out)?;
    }
    Ok(())
}

fn append_label(alloc: Global, label: &Label, out: &mut Vec<u8>) -> Result<(), AllocError>
    requires { IsSoundLabel label.now }
    ensures text { OnOk result (out.new.items ≡ out.old.items ++ label_line label.now) }
    ensures fits { OnOk result (IsLabel label.now) }
{
    append_indent(out)?;
    out.extend_from_slice(b"session ")?;
    append_number(owner_of(label).number() as u64, out)?;
    out.extend_from_slice(b" ")?;
    append_deed(alloc, label, out)?;
    out.extend_from_slice(b"\n")
}

/// Whose label it is.
fn owner_of(label: &Label) -> Session
    ensures { result ≡ owner_of label.now }
{
    match label {
        Label::Begin { session, .. }
        | Label::Ask { session, .. }
        | Label::Take { session, .. }
        | Label::Put { session, .. }
        | Label::Wait { session, .. }
        | Label::Victim { session, .. }
        | Label::Answer { session, .. }
        | Label::Commit { session, .. }
        | Label::Rollback { session, .. } => *session,
    }
}

/// Appends what the label's session did.
fn append_deed(alloc: Global, label: &Label, out: &mut Vec<u8>) -> Result<(), AllocError>
    requires { IsSoundLabel label.now }
    ensures text { OnOk result (out.new.items ≡ out.old.items ++ deed_text label.now) }
    ensures fits { OnOk result (IsDeed label.now) }
{
    match label {
        Label::Begin { transaction, .. } => append_counted(b"begin ", *transaction, out),
        Label::Ask { statement, .. } => append_counted(b"ask ", *statement, out),
        Label::Take { key, mode, .. } => append_locked(b"take ", *key, *mode, out),
        Label::Put { key, mode, .. } => append_locked(b"put ", *key, *mode, out),
        Label::Wait {
            key,
            mode,
            blockers,
            ..
        } => append_wait(*key, *mode, *blockers, out),
        Label::Victim { cycle, .. } => append_victim(*cycle, out),
        Label::Answer { answer, .. } => append_answered(alloc, answer, out),
        Label::Commit { place, .. } => append_counted(b"commit ", *place, out),
        Label::Rollback { cause, .. } => append_rollback(*cause, out),
    }
}

fn append_counted(word: &[u8], number: u64, out: &mut Vec<u8>) -> Result<(), AllocError>
    ensures { OnOk result (out.new.items ≡ out.old.items ++ (word.now ++ decimal number)) }
{
    out.extend_from_slice(word)?;
    append_number(number, out)
}

fn append_locked(word: &[u8], key: Key, mode: Mode, out: &mut Vec<u8>) -> Result<(), AllocError>
    ensures text { OnOk result (out.new.items ≡ out.old.items ++ (word.now ++ lock_text key mode)) }
    ensures fits { OnOk result (IsKey key) }
{
    out.extend_from_slice(word)?;
    append_lock(key, mode, out)
}

fn append_wait(
    key: Key,
    mode: Mode,
    blockers: Sessions,
    out: &mut Vec<u8>,
) -> Result<(), AllocError>
    ensures text { OnOk result (out.new.items ≡ out.old.items ++ (codes "wait " ++ lock_text key mode ++ codes " for" ++ flat_map spaced blockers)) }
    ensures key { OnOk result (IsKey key) }
    ensures blockers { OnOk result (AreSessions blockers) }
{
    append_locked(b"wait ", key, mode, out)?;
    out.extend_from_slice(b" for")?;
    append_sessions(blockers, out)
}

fn append_victim(cycle: Sessions, out: &mut Vec<u8>) -> Result<(), AllocError>
    ensures text { OnOk result (out.new.items ≡ out.old.items ++ (codes "victim" ++ cycle_text cycle)) }
    ensures fits { OnOk result (AreSessions cycle) }
{
    out.extend_from_slice(b"victim")?;
    append_cycle(cycle, out)
}

fn append_answered(alloc: Global, answer: &Answer, out: &mut Vec<u8>) -> Result<(), AllocError>
    requires { IsSoundAnswer answer.now }
    ensures text { OnOk result (out.new.items ≡ out.old.items ++ (codes "answer " ++ answer_text answer.now)) }
    ensures fits { OnOk result (IsAnswer answer.now) }
{
    out.extend_from_slice(b"answer ")?;
    append_answer_text(alloc, answer, out)
}

fn append_rollback(cause: Cause, out: &mut Vec<u8>) -> Result<(), AllocError>
    ensures { OnOk result (out.new.items ≡ out.old.items ++ (codes "rollback " ++ cause_text cause)) }
{
    out.extend_from_slice(b"rollback ")?;
    out.extend_from_slice(cause_text(cause))
}

fn cause_text(cause: Cause) -> &'static [u8]
    ensures { result.now ≡ cause_text cause }
{
    match cause {
        Cause::Asked => b"asked",
        Cause::NoMemory => b"memory",
    }
}

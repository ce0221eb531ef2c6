use crate::others::Other;
use sg_modes::{Schedule, Session};
use sg_plain::{Answer, PlainRows};
use sg_trace::Label;
use std::marker::Model;

/// A transaction that committed, and the answers that stand elsewhere.
#[derive(Drop)]
pub struct Committed<'a> {
    /// Whose it was.
    pub session: Session,
    /// Its number in the session's script, from 1.
    pub transaction: u64,
    /// What its statements answered, in order.
    pub answers: &'a [Answer],
}

impl<'a> Model for Committed<'a> {
    ghost use Rattle.sg_texts.specs.Texts.{Commit};

    ghost Value = { Commit };

    ghost view = { λ c. record { session = c.session; transaction = c.transaction; answers = c.answers.now } };
}

/// What is told of a run that has ended.
#[derive(Drop)]
pub struct Told<'a> {
    /// The transactions that committed, in the order of their commits.
    pub commits: Vec<Committed<'a>>,
    /// The others, by session and then by number.
    pub others: Vec<Other>,
    /// The rows at the end.
    pub rows: PlainRows,
    /// The labels of the trace, where they are asked for.
    pub labels: Option<&'a [Label]>,
    /// Whose turns the trace came of, where they are asked for.
    pub schedule: Option<Schedule>,
}

impl<'a> Model for Told<'a> {
    ghost use Rattle.std.specs.Prelude.{option_map};
    ghost use Rattle.sg_texts.specs.Told.{Told as ToldValue};

    ghost Value = { ToldValue };

    ghost view = { λ t. record { commits = t.commits.items; others = t.others.items; rows = t.rows; labels = option_map (λ labels. labels.now) t.labels; schedule = t.schedule } };
}

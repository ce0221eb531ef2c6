ghost use Rattle.std.specs.Prelude.{IfOk, OnErr};
ghost use Rattle.sg_plain.specs.Replies.{PlainReply};
ghost use Rattle.sg_plain.specs.Sat.{AreSoundAnswers};
ghost use Rattle.sg_plain.specs.Serial.{Executes, ExecutesBy, StopsAfterFront};

use crate::evals::eval;
use crate::rows::PlainRows;
use crate::statements::Answers;
use crate::transactions::Transaction;
use sg_shape::{Items, Judge};
use std::alloc::{AllocError, Global};

/// Executes the statements of a transaction, in order, whatever its end is. `AllocError` is want of memory; the rows
/// are then those after some front of the statements, whose answers are given up.
#[tactic(auto, using(crate::proofs::Runs::front_of, crate::proofs::Runs::front_more))]
pub fn execute<J: Judge>(
    alloc: Global,
    judge: &J,
    rows: &mut PlainRows,
    transaction: &Transaction,
) -> Result<Answers, AllocError>
    ensures replies { IfOk result (λ answers. ExecutesBy PlainReply rows.old transaction.now.statements answers rows.new) }
    ensures sound { IfOk result AreSoundAnswers }
    ensures executes { IfOk result (λ answers. Executes rows.old transaction.now.statements answers rows.new) }
    ensures err { OnErr result (StopsAfterFront rows.old transaction.now.statements rows.new) }
{
    rows.in_order();
    let mut answers = Items::new(alloc);
    for statement in transaction.as_slice() {
        let answer = eval(alloc, judge, rows, statement)?;
        answers.push(answer)?;
    }
    Ok(answers)
}

ghost use Rattle.std.specs.Prelude.{◌≡◌};

use crate::rooms::Roomy;
use sg_modes::Session;
use sg_plain::{Answer, Statement};
use std::marker::Model;

/// Statements of a transaction, in order, with room for those to come.
pub type KeptStatements = Roomy<Statement>;

/// The answers of a transaction's statements, in order, with room for those to come.
pub type KeptAnswers = Roomy<Answer>;

/// A transaction that committed: whose it was, its number among those that its session began, its statements, and
/// the answer kept for each.
#[derive(Debug, Drop)]
pub struct JournalEntry {
    session: Session,
    transaction: u64,
    statements: KeptStatements,
    answers: KeptAnswers,
}

impl Model for JournalEntry {
    ghost use Rattle.sg_plain.specs.Serial.{Entry};

    ghost Value = { Entry };

    ghost view = { λ it. record { session = it.session; transaction = it.transaction; statements = it.statements.items; answers = it.answers.items } };
}

/// The transactions that committed, in the order of their commits.
pub type Journal = Roomy<JournalEntry>;

impl JournalEntry {
    /// The entry of a transaction. It takes no memory.
    pub fn new(
        session: Session,
        transaction: u64,
        statements: KeptStatements,
        answers: KeptAnswers,
    ) -> JournalEntry
        ensures session { result.session ≡ session }
        ensures transaction { result.transaction ≡ transaction }
        ensures statements { result.statements ≡ statements.items }
        ensures answers { result.answers ≡ answers.items }
    {
        JournalEntry {
            session,
            transaction,
            statements,
            answers,
        }
    }

    /// Whose it was.
    pub fn session(&self) -> Session
        ensures { result ≡ self.now.session }
    {
        self.session
    }

    /// Its number among the transactions that its session began, from 1.
    pub fn transaction(&self) -> u64
        ensures { result ≡ self.now.transaction }
    {
        self.transaction
    }

    /// Its statements, in order.
    pub fn statements(&self) -> &[Statement]
        ensures { result.now ≡ self.now.statements }
    {
        self.statements.as_slice()
    }

    /// The answer of each.
    pub fn answers(&self) -> &KeptAnswers
        ensures { result.now.items ≡ self.now.answers }
    {
        &self.answers
    }
}

ghost use Rattle.std.specs.Prelude.{◌≡◌, [], ◌∷◌, ◌++◌, length, slice_get, OnOk, OnErr, IfErr};
ghost use Rattle.std.specs.Option.{option_copied};
ghost use Rattle.sg_plain.specs.Sat.{IsSoundStatement, AreSound};

use crate::statements::Statement;
use sg_shape::{Back, Items};
use std::alloc::Global;
use std::marker::Model;

/// How a transaction ends.
#[derive(Clone, Copy, Debug, PartialEq, Eq)]
pub enum End {
    /// Its changes stay.
    Commit,
    /// Its changes are undone.
    Rollback,
}

/// Statements, executed in order, and how they end. All their shapes are sound.
#[derive(Debug, Drop)]
pub struct Transaction {
    statements: Items<Statement>,
    end: End,
}

impl Model for Transaction {
    ghost use Rattle.sg_plain.specs.Transactions.{TransactionPlan};
    ghost use Rattle.sg_plain.specs.Sat.{AreSound};

    ghost Value = { TransactionPlan };

    ghost view = { λ transaction. record { statements = transaction.statements; end = transaction.end } };

    ghost invariant = { λ transaction. AreSound transaction.statements };
}

impl Transaction {
    /// A transaction without statements. It takes no memory, and keeps the allocator for its own growth.
    pub fn new(alloc: Global, end: End) -> Transaction
        ensures statements { result.statements ≡ [] }
        ensures end { result.end ≡ end }
    {
        Transaction {
            statements: Items::new(alloc),
            end,
        }
    }

    /// Puts a statement last. Without memory for it the transaction stays as it was, and the statement comes back.
    pub fn push(&mut self, statement: Statement) -> Result<(), Back<Statement>>
        requires { IsSoundStatement statement }
        ensures ok { OnOk result (self.new ≡ record self.old { statements = self.old.statements ++ statement ∷ [] }) }
        ensures err { OnErr result (self.new ≡ self.old) }
        ensures back { IfErr result (λ back. back.item ≡ statement) }
    {
        self.statements.push(statement)
    }

    /// How the transaction ends.
    pub fn end(&self) -> End
        ensures { result ≡ self.now.end }
    {
        self.end
    }

    /// The same statements with this end.
    pub fn with_end(self, end: End) -> Transaction
        ensures { result ≡ record self { end = end } }
    {
        Transaction {
            statements: self.statements,
            end,
        }
    }

    /// How many statements there are.
    pub fn len(&self) -> usize
        ensures { result ≡ length self.now.statements }
    {
        self.statements.len()
    }

    /// The statement at a place, counted from 0: `None` exactly past the end.
    pub fn at(&self, place: usize) -> Option<&Statement>
        ensures { option_copied result ≡ slice_get self.now.statements place }
    {
        self.statements.at(place)
    }

    /// That all shapes are sound, for a proof that rests on it. It does nothing.
    #[inline(always)]
    pub fn all_sound(&self)
        ensures { AreSound self.now.statements }
    {
        let _statements = &self.statements;
    }

    /// All statements, in order.
    pub fn as_slice(&self) -> &[Statement]
        ensures all { result.now ≡ self.now.statements }
        ensures sound { AreSound self.now.statements }
    {
        self.statements.as_slice()
    }
}

ghost use Rattle.std.specs.Prelude.{◌≡◌, ◌≢◌, ◌+◌, ◌-◌, ◌*◌, ◌≤◌, ◌++◌, ◌∷◌, [], IfOk, OnOk};
ghost use Rattle.sg_modes.specs.Sessions.{IsSession};
ghost use Rattle.sg_plain.specs.Sat.{IsSoundStatement};
ghost use Rattle.sg_script.specs.Plans.{above_all, numbers_of, with_transaction};
ghost use Rattle.sg_workload.specs.Workload.{for_each, row, script_of, session_of, settings, transaction};

use crate::generator::Generator;
use sg_cells::{Density, Grid, Settings};
use sg_modes::Session;
use sg_plain::{End, PlainRows, Query, Statement, Test, Transaction};
use sg_script::Script;
use sg_shape::Pred;
use std::alloc::{AllocError, Global};

/// The script of a seed: a table of 1 to 5,000 boxes, and 1 to 64 sessions of three transactions each, which look at a
/// box, give a row another one and add a row. `AllocError` is want of memory.
pub fn make_script(alloc: Global, seed: u64, rows: u32, sessions: u8) -> Result<Script, AllocError>
    requires some_rows { 1 ≤ rows }
    requires most_rows { rows ≤ 5000 }
    requires some_sessions { 1 ≤ sessions }
    requires most_sessions { sessions ≤ 64 }
    ensures { IfOk result (λ script. script ≡ script_of seed rows sessions) }
{
    let mut generator = Generator { state: seed };
    let table = rows_of(alloc, &mut generator, rows)?;
    let mut script = Script::new(alloc, settings(), table);
    for number in 1..=sessions {
        add_session(alloc, &mut generator, &mut script, rows, number)?;
    }
    Ok(script)
}

/// How the table is searched.
fn settings() -> Settings
    ensures { result ≡ settings }
{
    let medium = Density::Medium;
    let grid = Grid::new(0, 0, 100_000, 100_000, [medium, medium, medium, medium], 16);
    Settings {
        grid: grid.ok(),
        window: 64,
    }
}

/// The opening rows.
fn rows_of(alloc: Global, generator: &mut Generator, rows: u32) -> Result<PlainRows, AllocError>
    requires { rows ≤ 5000 }
    ensures rows { IfOk result (λ table. table ≡ (for_each rows row generator.old.state).0) }
    ensures state { OnOk result (generator.new.state ≡ (for_each rows row generator.old.state).1) }
{
    let mut table = PlainRows::new(alloc);
    for key in 1..=rows {
        let shape = generator.rect(alloc)?;
        table.push(key, shape)?;
    }
    Ok(table)
}

/// A session with its transactions, put last.
fn add_session(
    alloc: Global,
    generator: &mut Generator,
    script: &mut Script,
    rows: u32,
    number: u8,
) -> Result<(), AllocError>
    requires least { 1 ≤ rows }
    requires most { rows ≤ 5000 }
    requires session { IsSession number }
    requires last { above_all (numbers_of script.old.sessions) ≤ number }
    ensures script { OnOk result (script.new ≡ record script.old { sessions = script.old.sessions ++ (session_of rows number generator.old.state).0 ∷ [] }) }
    ensures state { OnOk result (generator.new.state ≡ (session_of rows number generator.old.state).1) }
{
    let Some(session) = Session::new(number) else {
        unreachable!()
    };
    script.session(alloc, session, 0)?;
    let last_key = rows + 3 * (number as u32 - 1);
    for place in 1..=3 {
        let made = transaction(alloc, generator, rows, last_key + place)?;
        add_transaction(script, made)?;
    }
    Ok(())
}

/// A transaction that adds a row with this key.
#[tactic(auto, unfolding(crate::specs::Workload::transaction))]
fn transaction(
    alloc: Global,
    generator: &mut Generator,
    rows: u32,
    key: u32,
) -> Result<Transaction, AllocError>
    requires least { 1 ≤ rows }
    requires most { rows ≤ 5000 }
    ensures transaction { IfOk result (λ made. made ≡ (transaction rows key generator.old.state).0) }
    ensures state { OnOk result (generator.new.state ≡ (transaction rows key generator.old.state).1) }
{
    let seen = generator.rect(alloc)?;
    let changed = 1 + generator.draw(rows);
    let moved = generator.rect(alloc)?;
    let added = generator.rect(alloc)?;
    let query = Query {
        test: Test::Relate(Pred::Intersects),
        shape: seen,
    };
    let mut made = Transaction::new(alloc, End::Commit);
    add(&mut made, Statement::Select(query))?;
    add(&mut made, Statement::Update(changed, moved))?;
    add(&mut made, Statement::Insert(key, added))?;
    Ok(made)
}

/// Puts the statement last.
fn add(made: &mut Transaction, statement: Statement) -> Result<(), AllocError>
    requires { IsSoundStatement statement }
    ensures { OnOk result (made.new ≡ record made.old { statements = made.old.statements ++ statement ∷ [] }) }
{
    made.push(statement)?;
    Ok(())
}

/// Gives the last session, which has to be there, a further transaction.
fn add_transaction(script: &mut Script, made: Transaction) -> Result<(), AllocError>
    requires { script.old.sessions ≢ [] }
    ensures { OnOk result (script.new ≡ record script.old { sessions = with_transaction made script.old.sessions }) }
{
    script.transaction(made)?;
    Ok(())
}

ghost use Rattle.std.specs.Prelude.{◌≤◌, IfOk};
ghost use Rattle.sg_shape.specs.Sound.{IsSound};
ghost use Rattle.sg_plain.specs.Sat.{IsSoundTest, IsSoundStatement};
ghost use Rattle.sg_scan.specs.Scans.{Asks, HasQuery, IsSearchOf, IsSearchFor, IsByQuery, Finds};

use crate::lists::seen_keys;
use crate::queries::is_empty;
use sg_cellrows::CellRows;
use sg_cells::{CellList, Settings};
use sg_modes::Session;
use sg_plain::{KeyList, Statement, Test};
use sg_ranges::Ranges;
use sg_rows::Rows;
use sg_shape::{CellJudge, Pred, Shape};
use std::alloc::{AllocError, Global};

/// Where a statement looks for rows.
#[derive(Drop)]
pub(crate) enum Search {
    /// At the one key of a get.
    Row(u32),
    /// Nowhere: there is no index, and the query's shape is EMPTY.
    Nothing,
    /// In each row: there is no index.
    Every,
    /// In the ranges of the query's cells.
    Cells(CellSearch),
}

/// Where a query looks in an index.
#[derive(Drop)]
pub(crate) struct CellSearch {
    /// The cells of the query's shape; of one grown by the bound where the query asks for distances.
    pub cells: CellList,
    /// The ranges in which the cells of rows are looked for.
    pub ranges: Ranges,
    /// Whether the query asks for a common point. Cells alone decide of nothing else.
    pub intersects: bool,
}

/// What a query finds.
#[derive(Drop)]
pub struct Found {
    /// The keys of the rows that may satisfy it, rising.
    pub candidates: KeyList,
    /// Those of which the cells alone tell that they satisfy it, rising.
    pub sure: KeyList,
}

impl Search {
    /// Where the statement, which asks about rows, looks for them.
    pub(crate) fn of<C: CellJudge>(
        alloc: Global,
        judge: &C,
        settings: &Settings,
        statement: &Statement,
    ) -> Result<Search, AllocError>
        requires asks { Asks statement.now }
        requires sound { IsSoundStatement statement.now }
        requires least { 1 ≤ settings.now.window }
        requires most { settings.now.window ≤ 8192 }
        ensures search { IfOk result (IsSearchFor settings.now statement.now) }
        ensures query { HasQuery statement.now → IfOk result IsByQuery }
    {
        match statement {
            Statement::Get(key) => Ok(Search::Row(*key)),
            Statement::Select(query) => {
                Search::of_test(alloc, judge, settings, query.test, &query.shape)
            }
            Statement::Plan(query) => {
                Search::of_test(alloc, judge, settings, query.test, &query.shape)
            }
            Statement::Filter(shape) => {
                let meeting = Test::Relate(Pred::Intersects);
                Search::of_test(alloc, judge, settings, meeting, shape)
            }
            Statement::DeleteWhere(query) => {
                Search::of_test(alloc, judge, settings, query.test, &query.shape)
            }
            _ => unreachable!(),
        }
    }

    /// Where a test of rows against a shape looks for them.
    fn of_test<C: CellJudge>(
        alloc: Global,
        judge: &C,
        settings: &Settings,
        test: Test,
        shape: &Shape,
    ) -> Result<Search, AllocError>
        requires test { IsSoundTest test }
        requires sound { IsSound shape.now }
        requires least { 1 ≤ settings.now.window }
        requires most { settings.now.window ≤ 8192 }
        ensures search { IfOk result (IsSearchOf settings.now (record { test = test; shape = shape.now })) }
        ensures query { IfOk result IsByQuery }
    {
        match &settings.grid {
            Some(grid) => {
                let cells = CellSearch::of_test(alloc, judge, grid, settings.window, test, shape)?;
                Ok(Search::Cells(cells))
            }
            None => {
                if is_empty(shape) {
                    Ok(Search::Nothing)
                } else {
                    Ok(Search::Every)
                }
            }
        }
    }

    /// What a query finds among the rows that the session sees.
    pub(crate) fn found(
        &self,
        alloc: Global,
        s: Session,
        rows: &Rows,
        cells: &CellRows,
    ) -> Result<Found, AllocError>
        requires { IsByQuery self.now }
        ensures { IfOk result (Finds self.now s rows.now.rows cells.now.rows) }
    {
        rows.in_order();
        match self {
            Search::Cells(search) => search.found(alloc, s, cells),
            Search::Every => Ok(Found {
                candidates: seen_keys(alloc, s, rows)?,
                sure: KeyList::new(alloc),
            }),
            Search::Nothing => Ok(Found {
                candidates: KeyList::new(alloc),
                sure: KeyList::new(alloc),
            }),
            Search::Row(_) => unreachable!(),
        }
    }
}

ghost use Rattle.std.specs.Prelude.{◌≡◌, ◌+◌, ◌-◌, ◌<◌, ◌^◌, true, false, length, IfOk, IfSome, IsSome, OnErr};
ghost use Rattle.sg_plain.specs.Keys.{IsRising};
ghost use Rattle.sg_plain.specs.declared.statements.Answer.TheVariants as answer;
ghost use Rattle.sg_plain.specs.Replies.{Means};
ghost use Rattle.sg_plain.specs.Rows as plain;
ghost use Rattle.sg_plain.specs.Sat.{IsSoundStatement};
ghost use Rattle.sg_trace.specs.Laws.{AreSettings};
ghost use Rattle.sg_trace.specs.Pending.{ArePending};
ghost use Rattle.sg_trace.specs.Replies.{Reply};
ghost use Rattle.sg_scan.specs.Cursors.{IsScanFor};
ghost use Rattle.sg_scan.specs.Scans.{HasQuery};
ghost use Rattle.sg_stores.specs.Agreement.{SeenAgree, seen_rows};
ghost use Rattle.sg_writes.specs.Changes.{Writes, IsChangeFor, IsFresh};
ghost use Rattle.sg_engine.specs.Shown.{is_open_in, job_in, length_in};
ghost use Rattle.sg_engine.specs.Inside.{seat_of, is_writing, was_delivered};
ghost use Rattle.sg_engine.specs.Phases.{answer_of, IsJobOf};
ghost use Rattle.sg_engine.specs.Nexts.{WaitsForNone, HasReadAll};
ghost use Rattle.sg_engine.specs.Searches.{pending_of};
ghost use Rattle.sg_engine.specs.Preparing.{Prepares, HasNoneLeft, IsNoJob};
ghost use Rattle.sg_engine.specs.Reaching.{IsFoundBy, is_filtered, IsReplying, IsAllRefined, IsClosed, IsReached, name_at, settled, settled_at, prepared_of};

use crate::queries::{chosen, job_of, shape_of};
use crate::shared::{Pending, Seat, Shared, Work};
use sg_cellrows::CellRows;
use sg_cells::Settings;
use sg_modes::Session;
use sg_plain::{Answer, KeyList, Statement, Test};
use sg_refine::{JobName, RefineJob};
use sg_rows::Rows;
use sg_scan::{Found, Scan};
use sg_shape::{CellJudge, Pred};
use sg_writes::Change;
use std::alloc::{AllocError, Global};

/// What follows once a session has read what its open statement needs.
#[derive(Drop)]
pub(crate) enum Prepared {
    /// This is its answer.
    Answer(Answer),
    /// These candidates are to be refined first.
    Job(RefineJob),
    /// It has come to its writes.
    Writes,
}

/// The same, with all the memory that it takes.
#[derive(Drop)]
pub(crate) enum Reached {
    /// This is its answer.
    Answer(Answer),
    /// The job is waited for already, and this is a copy of it.
    Again(RefineJob),
    /// What was found, the job that is to be waited for, and a copy of it.
    Refine {
        found: Found,
        job: RefineJob,
        copy: RefineJob,
    },
    /// This is what it writes.
    Writes(Change),
}

impl Shared {
    /// What follows once the session has read what its open statement needs: its answer, the job to be refined first, or
    /// its writes. The job is given again as long as its result is waited for. `AllocError` is want of memory; nothing
    /// has changed then.
    pub(crate) fn prepare<C: CellJudge>(
        &mut self,
        judge: &C,
        s: Session,
    ) -> Result<Prepared, AllocError>
        requires open { is_open_in self.old s ≡ true }
        requires free { WaitsForNone self.old s }
        requires read { HasReadAll self.old s }
        requires reads { (job_in self.old.jobs s).writes ≡ false }
        ensures ok { IfOk result (Prepares s self.old self.new) }
        ensures left { IfOk result (λ it. IsNoJob it → HasNoneLeft self.old s) }
        ensures err { OnErr result (self.new ≡ self.old) }
    {
        s.in_range();
        self.trace.countable();
        let place = s.index();
        let reached = reached_at(
            &self.seats[place],
            self.alloc,
            judge,
            &self.settings,
            s,
            &self.rows,
            &self.cells,
        )?;
        Ok(settle_at(&mut self.seats[place], reached))
    }
}

/// What follows of the seat's open statement. There must be one.
fn reached_at<C: CellJudge>(
    seat: &Seat,
    alloc: Global,
    judge: &C,
    settings: &Settings,
    s: Session,
    rows: &Rows,
    cells: &CellRows,
) -> Result<Reached, AllocError>
    requires settings { AreSettings settings.now }
    requires agree { SeenAgree settings.now s rows.now.rows cells.now.rows }
    requires open { IsSome (pending_of seat.now) }
    requires fits { length_in (λ r. r.answers) (seat_of seat.now).running + 1 < 2 ^ 64 }
    requires sound { IfSome (pending_of seat.now) (λ p. IsSoundStatement p.statement) }
    requires scan { IfSome (pending_of seat.now) (λ p. IfSome p.scan (IsScanFor settings.now p.statement)) }
    requires reply { IfSome (pending_of seat.now) (λ p. IsReplying settings.now (seen_rows s rows.now.rows) p.statement p.work) }
    requires reads { IfSome (pending_of seat.now) (λ p. is_writing p.work ≡ false) }
    ensures { IfOk result (λ it. IfSome (pending_of seat.now) (λ p. IsReached settings.now (seen_rows s rows.now.rows) p.statement p.work (name_at s seat.now) it)) }
{
    match &seat.running {
        None => unreachable!(),
        Some(running) => match &running.pending {
            None => unreachable!(),
            Some(pending) => {
                let name = JobName {
                    session: s,
                    transaction: seat.begun,
                    statement: running.answers.len() as u64 + 1,
                };
                pending.reached(alloc, judge, settings, name, rows, cells)
            }
        },
    }
}

/// Keeps what the seat's open statement has come to, and gives what follows. There must be one.
fn settle_at(seat: &mut Seat, reached: Reached) -> Prepared
    requires { IsSome (pending_of seat.old) }
    ensures seat { seat.new ≡ settled_at reached seat.old }
    ensures result { result ≡ prepared_of reached }
{
    match &mut seat.running {
        None => unreachable!(),
        Some(running) => match &mut running.pending {
            None => unreachable!(),
            Some(pending) => pending.settle(reached),
        },
    }
}

impl Pending {
    /// Keeps what the statement has come to, and gives what follows.
    fn settle(&mut self, reached: Reached) -> Prepared
        ensures pending { self.new ≡ settled reached self.old }
        ensures result { result ≡ prepared_of reached }
    {
        match reached {
            Reached::Answer(answer) => Prepared::Answer(answer),
            Reached::Again(copy) => Prepared::Job(copy),
            Reached::Refine { found, job, copy } => {
                self.work = Work::Awaits { found, job };
                Prepared::Job(copy)
            }
            Reached::Writes(change) => {
                self.delivered = self.was_delivered();
                self.work = Work::Writes(change);
                Prepared::Writes
            }
        }
    }

    /// Whether the result of the statement's job was delivered.
    fn was_delivered(&self) -> bool
        ensures { result ≡ was_delivered self.now.work self.now.delivered }
    {
        match &self.work {
            Work::Unread => false,
            Work::Awaits { .. } => false,
            Work::Refined { .. } => true,
            Work::Writes(_) => self.delivered,
        }
    }
}

impl Pending {
    /// What follows of the statement, where what it needs to read is held and it doesn't write yet.
    fn reached<C: CellJudge>(
        &self,
        alloc: Global,
        judge: &C,
        settings: &Settings,
        name: JobName,
        rows: &Rows,
        cells: &CellRows,
    ) -> Result<Reached, AllocError>
        requires settings { AreSettings settings.now }
        requires agree { SeenAgree settings.now name.session rows.now.rows cells.now.rows }
        requires sound { IsSoundStatement self.now.statement }
        requires scan { IfSome self.now.scan (IsScanFor settings.now self.now.statement) }
        requires reply { IsReplying settings.now (seen_rows name.session rows.now.rows) self.now.statement self.now.work }
        requires reads { is_writing self.now.work ≡ false }
        ensures { IfOk result (IsReached settings.now (seen_rows name.session rows.now.rows) self.now.statement self.now.work name) }
    {
        match &self.work {
            Work::Unread => self.first(alloc, judge, settings, name, rows, cells),
            Work::Awaits { found: _, job } => Ok(Reached::Again(job.copy(alloc)?)),
            Work::Refined { found, done } => {
                self.close(alloc, judge, settings, found, done.keys())
            }
            Work::Writes(_) => unreachable!(),
        }
    }

    /// What follows of the statement, of which nothing was found yet.
    fn first<C: CellJudge>(
        &self,
        alloc: Global,
        judge: &C,
        settings: &Settings,
        name: JobName,
        rows: &Rows,
        cells: &CellRows,
    ) -> Result<Reached, AllocError>
        requires settings { AreSettings settings.now }
        requires agree { SeenAgree settings.now name.session rows.now.rows cells.now.rows }
        requires sound { IsSoundStatement self.now.statement }
        requires scan { IfSome self.now.scan (IsScanFor settings.now self.now.statement) }
        ensures { IfOk result (IsReached settings.now (seen_rows name.session rows.now.rows) self.now.statement Work.Unread name) }
    {
        match &self.statement {
            Statement::Insert(_, _) | Statement::Update(_, _) | Statement::Delete(_) => {
                let change = self.change(alloc, judge, settings, KeyList::new(alloc))?;
                Ok(Reached::Writes(change))
            }
            Statement::Get(key) => {
                let answer = get(alloc, rows, name.session, *key)?;
                Ok(Reached::Answer(answer))
            }
            Statement::Select(_)
            | Statement::Plan(_)
            | Statement::Filter(_)
            | Statement::DeleteWhere(_) => self.search(alloc, judge, settings, name, rows, cells),
        }
    }
}

impl Pending {
    /// What follows of a statement that searches, of which nothing was found yet.
    fn search<C: CellJudge>(
        &self,
        alloc: Global,
        judge: &C,
        settings: &Settings,
        name: JobName,
        rows: &Rows,
        cells: &CellRows,
    ) -> Result<Reached, AllocError>
        requires settings { AreSettings settings.now }
        requires agree { SeenAgree settings.now name.session rows.now.rows cells.now.rows }
        requires query { HasQuery self.now.statement }
        requires sound { IsSoundStatement self.now.statement }
        requires scan { IfSome self.now.scan (IsScanFor settings.now self.now.statement) }
        ensures { IfOk result (IsReached settings.now (seen_rows name.session rows.now.rows) self.now.statement Work.Unread name) }
    {
        rows.in_order();
        let found = self.found(alloc, judge, settings, name.session, rows, cells)?;
        if is_filtered(&self.statement, settings) {
            return Ok(Reached::Answer(Answer::Keys(found.candidates)));
        }
        let job = self.job(alloc, name, &found, rows)?;
        if job.as_slice().is_empty() {
            return self.close(alloc, judge, settings, &found, &KeyList::new(alloc));
        }
        let copy = job.copy(alloc)?;
        Ok(Reached::Refine { found, job, copy })
    }

    /// What the statement's query finds.
    fn found<C: CellJudge>(
        &self,
        alloc: Global,
        judge: &C,
        settings: &Settings,
        s: Session,
        rows: &Rows,
        cells: &CellRows,
    ) -> Result<Found, AllocError>
        requires settings { AreSettings settings.now }
        requires query { HasQuery self.now.statement }
        requires sound { IsSoundStatement self.now.statement }
        requires scan { IfSome self.now.scan (IsScanFor settings.now self.now.statement) }
        ensures { SeenAgree settings.now s rows.now.rows cells.now.rows → IfOk result (IsFoundBy settings.now (seen_rows s rows.now.rows) self.now.statement) }
    {
        match &self.scan {
            Some(scan) => scan.found(alloc, s, rows, cells),
            None => {
                let scan = Scan::of(alloc, judge, settings, &self.statement)?;
                scan.found(alloc, s, rows, cells)
            }
        }
    }

    /// The candidates that aren't sure, to be tested by the statement's query.
    fn job(
        &self,
        alloc: Global,
        name: JobName,
        found: &Found,
        rows: &Rows,
    ) -> Result<RefineJob, AllocError>
        requires query { HasQuery self.now.statement }
        requires sound { IsSoundStatement self.now.statement }
        ensures name { IfOk result (λ job. job.name ≡ name) }
        ensures asks { IfOk result (IsJobOf self.now.statement) }
        ensures items { IfOk result (λ job. ArePending (seen_rows name.session rows.now.rows) found.now.candidates found.now.sure job.items) }
        ensures rising { IfOk result (λ _. IsRising found.now.candidates) }
    {
        let s = name.session;
        match &self.statement {
            Statement::Select(query) => {
                job_of(alloc, name, query.test, &query.shape, found, s, rows)
            }
            Statement::Plan(query) => {
                job_of(alloc, name, query.test, &query.shape, found, s, rows)
            }
            Statement::Filter(shape) => {
                let meeting = Test::Relate(Pred::Intersects);
                job_of(alloc, name, meeting, shape, found, s, rows)
            }
            Statement::DeleteWhere(query) => {
                job_of(alloc, name, query.test, &query.shape, found, s, rows)
            }
            _ => unreachable!(),
        }
    }

    /// What follows of a statement that searches, where nothing is left to refine of what was found: its answer, or the
    /// rows that it deletes. Of the candidates these passed the test.
    fn close<C: CellJudge>(
        &self,
        alloc: Global,
        judge: &C,
        settings: &Settings,
        found: &Found,
        passed: &KeyList,
    ) -> Result<Reached, AllocError>
        requires query { HasQuery self.now.statement }
        requires sound { IsSoundStatement self.now.statement }
        ensures { (seen : plain.Rows) → IfSome (answer_of self.now.statement found.now passed.now) (Reply settings.now seen self.now.statement) → IfOk result (IsClosed settings.now seen self.now.statement) }
    {
        let keys = chosen(alloc, found, passed)?;
        match &self.statement {
            Statement::Select(_) | Statement::Filter(_) => Ok(Reached::Answer(Answer::Keys(keys))),
            Statement::Plan(_) => Ok(Reached::Answer(planned(found, keys))),
            Statement::DeleteWhere(_) => {
                let change = self.change(alloc, judge, settings, keys)?;
                Ok(Reached::Writes(change))
            }
            _ => unreachable!(),
        }
    }

    /// What the statement writes, where these keys are selected.
    fn change<C: CellJudge>(
        &self,
        alloc: Global,
        judge: &C,
        settings: &Settings,
        selected: KeyList,
    ) -> Result<Change, AllocError>
        requires writes { Writes self.now.statement }
        requires sound { IsSoundStatement self.now.statement }
        ensures change { IfOk result (IsChangeFor settings.now self.now.statement selected) }
        ensures fresh { IfOk result IsFresh }
    {
        let statement = self.statement.copy(alloc)?;
        match Change::of(alloc, judge, settings, statement, selected) {
            Ok(change) => Ok(change),
            Err(_) => Err(AllocError),
        }
    }
}

/// How a query was searched, with its keys.
fn planned(found: &Found, keys: KeyList) -> Answer
    ensures { result ≡ answer.Plan (length found.now.candidates) (length found.now.sure) (length found.now.candidates - length found.now.sure) keys }
{
    let candidates = found.candidates.len() as u64;
    let sure = found.sure.len() as u64;
    Answer::Plan {
        candidates,
        sure,
        refined: candidates.saturating_sub(sure),
        keys,
    }
}

/// Whether the candidates themselves are the answer: of a filter over an index.
fn is_filtered(statement: &Statement, settings: &Settings) -> bool
    ensures { result ≡ is_filtered settings.now statement.now }
{
    match statement {
        Statement::Filter(_) => settings.grid.is_some(),
        _ => false,
    }
}

/// The shape of the row with the key, as the session sees it: `Found` with a copy of it, or `Absent`.
fn get(alloc: Global, rows: &Rows, s: Session, key: u32) -> Result<Answer, AllocError>
    ensures { IfOk result (Means (seen_rows s rows.now.rows) (Statement.Get key)) }
{
    match shape_of(rows, s, key) {
        None => Ok(Answer::Absent),
        Some(shape) => Ok(Answer::Found(shape.copy(alloc)?)),
    }
}

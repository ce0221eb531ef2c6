ghost use Rattle.std.specs.Prelude.{◌≡◌, ◌≤◌};

use crate::moves::{Task, beside, do_one, insert, intersecting, no_index, two_rows, update, x_of};
use sg_celltest::CellTest;
use sg_db::{Named, Naming, Opened};
use sg_modes::Priorities;
use sg_plain::PlainRows;
use sg_refine::{Gate, OpenGate};
use sg_relate::Relate;
use std::alloc::{AllocError, Global};
use std::marker::Brand;
use std::process::Abort;
use std::sync::Wait;
use std::sync::atomic::{AtomicU64, Ordering};
use std::test::Fail;
use std::thread::Threads;

type Table<G> = Opened<Relate, CellTest, G>;

fn open<R: Threads + Sync, G: Gate + Sync + Drop>(
    rt: &R,
    alloc: Global,
    rows: PlainRows,
    callers: u8,
    gate: G,
) -> Result<Table<G>, AllocError>
    requires least { 1 ≤ callers }
    requires most { callers ≤ 64 }
{
    Opened::open(
        rt,
        alloc,
        Relate,
        CellTest,
        no_index(),
        rows,
        Priorities::new(),
        callers,
        1,
        gate,
    )
}

#[test]
fn two_callers_take_turns(rt: HostRuntime) -> Result<(), Fail> {
    let alloc = rt.alloc();
    let opened = open(&rt, alloc, PlainRows::new(alloc), 2, OpenGate)?;
    turns::<_, Brand>(&rt, opened)
}

/// The lengths of fronts.
fn turns<R: Threads + Wait + Abort + Sync, N: Naming + Send + Sync>(
    rt: &R,
    opened: Table<OpenGate>,
) -> Result<(), Fail>
    requires { opened.table ≡ N.table }
{
    let Named { db, mut seats } = opened.named::<N>();
    let mut one = seats.next().ok_or("a seat")?;
    let mut two = seats.next().ok_or("a seat")?;
    assert!(rt; seats.next().is_none());
    assert!(rt; do_one(rt, &db, &mut one, intersecting(5)));
    assert!(rt; !one.is_live());
    assert_eq!(rt; db.look(&mut one).len(), 5);
    assert!(rt; do_one(rt, &db, &mut two, insert(1, 5)));
    assert_eq!(rt; db.look(&mut two).len(), 10);
    assert_eq!(rt; db.look(&mut one).len(), 10);
    let note = db.tell(&mut two);
    assert_eq!(rt; db.learn(&mut one, note).len(), 10);
    Ok(())
}

#[test]
fn two_updates_that_cross(rt: HostRuntime) -> Result<(), Fail> {
    let alloc = rt.alloc();
    for _ in 0..20u32 {
        let opened = open(&rt, alloc, two_rows(alloc)?, 3, OpenGate)?;
        crossing::<_, Brand>(&rt, opened)?;
    }
    Ok(())
}

/// At most one is a victim, and the rows are those of one of them, or of both in one of the two orders.
fn crossing<R: Threads + Wait + Abort + Sync, N: Naming + Send + Sync>(
    rt: &R,
    opened: Table<OpenGate>,
) -> Result<(), Fail>
    requires { opened.table ≡ N.table }
{
    let Named { db, mut seats } = opened.named::<N>();
    let mut one = seats.next().ok_or("a seat")?;
    let mut two = seats.next().ok_or("a seat")?;
    let mut three = seats.next().ok_or("a seat")?;
    let (first, second) = beside(
        rt,
        &db,
        &mut one,
        &mut two,
        Task::MoveBoth((1, 10), (2, 20)),
        Task::MoveBoth((2, 30), (1, 40)),
    );
    assert!(rt; first || second);
    let left = x_of(rt, &db, &mut three, 1);
    let right = x_of(rt, &db, &mut three, 2);
    let as_first = left == Some(10) && right == Some(20);
    let as_second = left == Some(40) && right == Some(30);
    assert!(rt; as_first || as_second);
    assert!(rt; first || as_second);
    assert!(rt; second || as_first);
    Ok(())
}

/// Holds the first pass until a second one comes, for a number of looks at most.
#[derive(Drop)]
struct Second {
    passes: AtomicU64,
    met: AtomicU64,
}

impl Gate for Second {
    fn pass(&self, _piece: u32) {
        if self.passes.fetch_add(1, Ordering::SeqCst) > 0 {
            return;
        }
        for _ in 0..1_000_000_000u64 {
            if self.passes.load(Ordering::SeqCst) > 1 {
                self.met.store(1, Ordering::SeqCst);
                return;
            }
        }
    }
}

impl Gate for &Second {
    fn pass(&self, piece: u32) {
        (**self).pass(piece);
    }
}

#[test]
fn gate_two_callers(rt: HostRuntime) -> Result<(), Fail> {
    let alloc = rt.alloc();
    let gate = Second {
        passes: AtomicU64::new(0),
        met: AtomicU64::new(0),
    };
    let opened = open(&rt, alloc, two_rows(alloc)?, 2, &gate)?;
    meeting::<_, Brand, _>(&rt, opened)?;
    assert_eq!(rt; gate.met.load(Ordering::SeqCst), 1);
    Ok(())
}

/// Two callers refine one row beside each other.
fn meeting<R: Threads + Wait + Abort + Sync, N: Naming + Send + Sync, G: Gate + Sync + Drop>(
    rt: &R,
    opened: Table<G>,
) -> Result<(), Fail>
    requires { opened.table ≡ N.table }
{
    let Named { db, mut seats } = opened.named::<N>();
    let mut one = seats.next().ok_or("a seat")?;
    let mut two = seats.next().ok_or("a seat")?;
    let (first, second) = beside(rt, &db, &mut one, &mut two, Task::Find(1), Task::Find(1));
    assert!(rt; first && second);
    Ok(())
}

#[test]
fn sixty_four_seats_over_one_row(rt: HostRuntime) -> Result<(), Fail> {
    let alloc = rt.alloc();
    let opened = open(&rt, alloc, two_rows(alloc)?, 64, OpenGate)?;
    all_over_one::<_, Brand>(&rt, opened)
}

/// Two and two callers move one row, and another finds it where one of them left it.
fn all_over_one<R: Threads + Wait + Abort + Sync, N: Naming + Send + Sync>(
    rt: &R,
    opened: Table<OpenGate>,
) -> Result<(), Fail>
    requires { opened.table ≡ N.table }
{
    let Named { db, mut seats } = opened.named::<N>();
    let mut reader = seats.next().ok_or("a seat")?;
    for round in 0..31u8 {
        let mut one = seats.next().ok_or("a seat")?;
        let mut two = seats.next().ok_or("a seat")?;
        let (low, high) = (round + 1, round + 101);
        let (first, second) = beside(
            rt,
            &db,
            &mut one,
            &mut two,
            Task::Move(1, low),
            Task::Move(1, high),
        );
        let left = x_of(rt, &db, &mut reader, 1);
        let as_first = first && left == Some(i32::from(low));
        let as_second = second && left == Some(i32::from(high));
        assert!(rt; as_first || as_second);
    }
    assert!(rt; seats.next().is_some());
    assert!(rt; seats.next().is_none());
    Ok(())
}

#[test]
fn dropped_in_mid_transaction(rt: HostRuntime) -> Result<(), Fail> {
    let alloc = rt.alloc();
    let opened = open(&rt, alloc, two_rows(alloc)?, 2, OpenGate)?;
    dropped::<_, Brand>(&rt, opened)
}

/// A transaction whose seat is dropped stays as it is, with its locks. Others go on beside them.
fn dropped<R: Threads + Wait + Abort + Sync, N: Naming + Send + Sync>(
    rt: &R,
    opened: Table<OpenGate>,
) -> Result<(), Fail>
    requires { opened.table ≡ N.table }
{
    let Named { db, mut seats } = opened.named::<N>();
    let mut one = seats.next().ok_or("a seat")?;
    let mut two = seats.next().ok_or("a seat")?;
    assert!(rt; db.execute(rt, &mut one, update(1, 10)).is_ok());
    drop(one);
    let before = db.look(&mut two).len();
    assert!(rt; do_one(rt, &db, &mut two, update(2, 20)));
    assert_eq!(rt; x_of(rt, &db, &mut two, 2), Some(20));
    assert_eq!(rt; db.look(&mut two).len().saturating_sub(before), 10);
    Ok(())
}

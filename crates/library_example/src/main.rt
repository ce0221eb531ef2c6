//! Two clerks book parcels of land in threads of their own, and a third caller looks on. A parcel is booked where no
//! booking lies on it: whatever the order of their steps, each of two parcels is booked once.
#![tactic(auto)]

ghost use Rattle.std.specs.Prelude.{◌≡◌, ◌≤◌};
ghost use Rattle.sg_shape.specs.Sound.{IsSound};

use sg_cells::Settings;
use sg_celltest::CellTest;
use sg_db::{Db, Named, Naming, Opened, Refused, Seat};
use sg_modes::Priorities;
use sg_plain::{Answer, PlainRows, Query, Statement, Test};
use sg_refine::OpenGate;
use sg_relate::Relate;
use sg_shape::{Kind, Pred, Shape, Spot};
use std::marker::Brand;
use std::process::ExitCode;
use std::sync::Wait;
use std::thread::{Threads, join};

fn main(rt: HostRuntime) -> ExitCode {
    let alloc = rt.alloc();
    let settings = Settings {
        grid: None,
        window: 64,
    };
    let rows = PlainRows::new(alloc);
    let ranks = Priorities::new();
    let Ok(opened) = Opened::open(
        &rt, alloc, Relate, CellTest, settings, rows, ranks, 3, 1, OpenGate,
    ) else {
        return ExitCode::from(1);
    };
    let (booked, grew) = office::<Brand, _>(&rt, opened);
    match println!(rt; "{booked} of 4 wishes were booked; the history only grew: {grew}") {
        Ok(()) => ExitCode::SUCCESS,
        Err(_) => ExitCode::from(1),
    }
}

/// How many wishes for two parcels were booked, and whether the third caller never saw less than before.
fn office<N: Naming + Send + Sync, R: Threads + Wait + Sync>(
    rt: &R,
    opened: Opened<Relate, CellTest, OpenGate>,
) -> (u8, bool)
    requires { opened.table ≡ N.table }
{
    let Named { db, mut seats } = opened.named::<N>();
    let (Some(mut one), Some(mut two), Some(mut three)) = (seats.next(), seats.next(), seats.next())
    else {
        return (0, false);
    };
    let ((first, second), grew) = all_three(rt, &db, &mut one, &mut two, &mut three);
    (booked(first) + booked(second), grew)
}

/// All three in threads of their own.
fn all_three<N: Naming + Send + Sync, R: Threads + Wait + Sync>(
    rt: &R,
    db: &Db<N, Relate, CellTest, OpenGate>,
    one: &mut Seat,
    two: &mut Seat,
    three: &mut Seat,
) -> (((bool, bool), (bool, bool)), bool)
    requires one { one.old.table ≡ db.now }
    requires two { two.old.table ≡ db.now }
    requires three { three.old.table ≡ db.now }
{
    join(
        rt,
        move ||
            requires one { one.now.table ≡ db.now }
            requires two { two.now.table ≡ db.now }
        { clerks(rt, db, one, two) },
        move ||
            requires { three.now.table ≡ db.now }
        { watch(db, three) },
    )
}

/// How many of both were booked.
fn booked(both: (bool, bool)) -> u8
    ensures { result ≤ 2 }
{
    u8::from(both.0) + u8::from(both.1)
}

/// Two clerks, who want the same parcels in crossing order.
fn clerks<N: Naming + Send + Sync, R: Threads + Wait + Sync>(
    rt: &R,
    db: &Db<N, Relate, CellTest, OpenGate>,
    one: &mut Seat,
    two: &mut Seat,
) -> ((bool, bool), (bool, bool))
    requires one { one.old.table ≡ db.now }
    requires two { two.old.table ≡ db.now }
{
    join(
        rt,
        move ||
            requires { one.now.table ≡ db.now }
        { clerk(rt, db, one, 1, 2) },
        move ||
            requires { two.now.table ≡ db.now }
        { clerk(rt, db, two, 2, 1) },
    )
}

/// Books one parcel and then the other, each where it is free.
fn clerk<N: Naming, R: Threads + Wait + Sync>(
    rt: &R,
    db: &Db<N, Relate, CellTest, OpenGate>,
    seat: &mut Seat,
    first: u8,
    second: u8,
) -> (bool, bool)
    requires { seat.old.table ≡ db.now }
{
    (soon(rt, db, seat, first), soon(rt, db, seat, second))
}

/// Books the parcel; the victim of a cycle of waits tries again.
fn soon<N: Naming, R: Threads + Wait + Sync>(
    rt: &R,
    db: &Db<N, Relate, CellTest, OpenGate>,
    seat: &mut Seat,
    parcel: u8,
) -> bool
    requires { seat.old.table ≡ db.now }
    ensures { seat.new.table ≡ seat.old.table }
{
    for _ in 0..1000u32 {
        match book(rt, db, seat, parcel) {
            Ok(booked) => return booked,
            Err(Refused::Victim { cycle: _, front: _ }) => {}
            Err(Refused::OutOfMemory) => return false,
        }
    }
    false
}

/// One transaction: is the parcel free, and then it is booked.
fn book<N: Naming, R: Threads + Wait + Sync>(
    rt: &R,
    db: &Db<N, Relate, CellTest, OpenGate>,
    seat: &mut Seat,
    parcel: u8,
) -> Result<bool, Refused>
    requires { seat.old.table ≡ db.now }
    ensures { seat.new.table ≡ seat.old.table }
{
    let query = Query {
        test: Test::Relate(Pred::Intersects),
        shape: place(parcel),
    };
    let free = match db.execute(rt, seat, Statement::Select(query))? {
        Answer::Keys(keys) => keys.len() == 0,
        _ => false,
    };
    if free {
        let key = u32::from(seat.session().number()) * 1000 + u32::from(parcel);
        db.execute(rt, seat, Statement::Insert(key, place(parcel)))?;
    }
    let _ = db.commit(rt, seat);
    Ok(free)
}

/// Where the parcel lies.
fn place(parcel: u8) -> Shape
    ensures { IsSound result }
{
    let x = i32::from(parcel);
    let shape = Shape::Point(Spot { x, y: 0 });
    match shape.check() {
        Ok(()) => shape,
        Err(_) => Shape::Empty(Kind::Point),
    }
}

/// Looks on, without a lock; whether the history never shrank.
fn watch<N: Naming>(db: &Db<N, Relate, CellTest, OpenGate>, seat: &mut Seat) -> bool
    requires { seat.old.table ≡ db.now }
{
    let mut seen = 0;
    for _ in 0..1000u32 {
        let now = db.look(seat).len();
        if now < seen {
            return false;
        }
        seen = now;
    }
    true
}

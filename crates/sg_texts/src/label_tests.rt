//! Labels as they are printed.

ghost use Rattle.sg_texts.specs.Sound.{IsSoundLabel};

use crate::labels::append_labels;
use sg_cells::{Cell, Density, Grid, Key};
use sg_modes::{Mode, Session, Sessions};
use sg_plain::Answer;
use sg_trace::{Cause, Label};
use std::alloc::{AllocError, Global};
use std::test::Fail;

fn session(number: u8) -> Result<Session, Fail> {
    Ok(Session::new(number).ok_or("a session has a number from 1 to 64")?)
}

fn append_label(alloc: Global, label: Label, out: &mut Vec<u8>) -> Result<(), AllocError>
    requires { IsSoundLabel label }
{
    let labels = [label];
    append_labels(alloc, labels.as_slice(), out)
}

/// Whether a trace of this one label has this text.
fn is_told(alloc: Global, label: Label, wanted: &[u8]) -> bool
    requires { IsSoundLabel label }
{
    let mut out = Vec::new(alloc);
    append_label(alloc, label, &mut out).is_ok() && out.as_slice() == wanted
}

fn begins(alloc: Global, session: Session) -> bool {
    let label = Label::Begin {
        session,
        transaction: 20,
    };
    is_told(alloc, label, b"labels 1\n  session 1 begin 20\n".as_slice())
}

fn asks(alloc: Global, session: Session) -> bool {
    let label = Label::Ask {
        session,
        statement: 3,
    };
    is_told(alloc, label, b"labels 1\n  session 64 ask 3\n".as_slice())
}

fn answers(alloc: Global, session: Session) -> bool {
    let label = Label::Answer {
        session,
        answer: Answer::Inserted,
    };
    is_told(
        alloc,
        label,
        b"labels 1\n  session 1 answer inserted\n".as_slice(),
    )
}

fn commits(alloc: Global, session: Session) -> bool {
    let label = Label::Commit { session, place: 2 };
    is_told(alloc, label, b"labels 1\n  session 1 commit 2\n".as_slice())
}

#[test]
fn what_a_script_asks_for(rt: HostRuntime) -> Result<(), Fail> {
    let one = session(1)?;
    let last = session(64)?;
    assert!(rt; begins(rt.alloc(), one));
    assert!(rt; asks(rt.alloc(), last));
    assert!(rt; answers(rt.alloc(), one));
    assert!(rt; commits(rt.alloc(), one));
    Ok(())
}

fn takes_the_end(alloc: Global, session: Session) -> bool {
    let label = Label::Take {
        session,
        key: Key::CellEnd,
        mode: Mode::RangeSS,
    };
    is_told(
        alloc,
        label,
        b"labels 1\n  session 1 take cell end RangeS-S\n".as_slice(),
    )
}

fn puts_a_row(alloc: Global, session: Session) -> bool {
    let label = Label::Put {
        session,
        key: Key::Row(4_294_967_295),
        mode: Mode::RangeXX,
    };
    is_told(
        alloc,
        label,
        b"labels 1\n  session 1 put row 4294967295 RangeX-X\n".as_slice(),
    )
}

/// Whether a cell that is put has this text.
fn puts(alloc: Global, session: Session, cell: Cell, row: u32, wanted: &[u8]) -> bool {
    let label = Label::Put {
        session,
        key: Key::Cell(cell, row),
        mode: Mode::X,
    };
    is_told(alloc, label, wanted)
}

/// The cell 32.0.13 of a grid from (0, 0) to (500, 200).
fn cell_at_the_middle() -> Result<Cell, Fail> {
    let levels = [
        Density::Medium,
        Density::Medium,
        Density::Medium,
        Density::Medium,
    ];
    let grid = Grid::new(0, 0, 500, 200, levels, 16).ok().ok_or("a grid")?;
    let first = grid.child(None, 32);
    let second = grid.child(Some(first), 0);
    Ok(grid.child(Some(second), 13))
}

#[test]
fn keys_that_are_locked(rt: HostRuntime) -> Result<(), Fail> {
    let one = session(1)?;
    let cell = cell_at_the_middle()?;
    assert!(rt; takes_the_end(rt.alloc(), one));
    assert!(rt; puts_a_row(rt.alloc(), one));
    let wanted = b"labels 1\n  session 1 put cell out row 7 X\n";
    assert!(rt; puts(rt.alloc(), one, Cell::outside(), 7, wanted.as_slice()));
    let wanted = b"labels 1\n  session 1 put cell 32.0.13 row 1 X\n";
    assert!(rt; puts(rt.alloc(), one, cell, 1, wanted.as_slice()));
    Ok(())
}

fn waits(alloc: Global, session: Session, blockers: Sessions) -> bool {
    let label = Label::Wait {
        session,
        key: Key::RowEnd,
        mode: Mode::RangeIN,
        blockers,
    };
    is_told(
        alloc,
        label,
        b"labels 1\n  session 2 wait row end RangeI-N for 1 64\n".as_slice(),
    )
}

fn falls_as_a_victim(alloc: Global, session: Session, cycle: Sessions) -> bool {
    let label = Label::Victim { session, cycle };
    is_told(
        alloc,
        label,
        b"labels 1\n  session 2 victim cycle 1 2\n".as_slice(),
    )
}

/// Whether a rollback of this cause has this text.
fn rolls_back(alloc: Global, session: Session, cause: Cause, wanted: &[u8]) -> bool {
    is_told(alloc, Label::Rollback { session, cause }, wanted)
}

#[test]
fn sessions_in_the_way(rt: HostRuntime) -> Result<(), Fail> {
    let one = session(1)?;
    let two = session(2)?;
    let last = session(64)?;
    let blockers = Sessions::none().with(last).with(one);
    assert!(rt; waits(rt.alloc(), two, blockers));
    let cycle = Sessions::none().with(two).with(one);
    assert!(rt; falls_as_a_victim(rt.alloc(), two, cycle));
    let wanted = b"labels 1\n  session 1 rollback asked\n";
    assert!(rt; rolls_back(rt.alloc(), one, Cause::Asked, wanted.as_slice()));
    let wanted = b"labels 1\n  session 1 rollback memory\n";
    assert!(rt; rolls_back(rt.alloc(), one, Cause::NoMemory, wanted.as_slice()));
    Ok(())
}

use super::*;
use std::test::Fail;

fn session(number: u8) -> Result<Session, Fail> {
    Ok(Session::new(number).ok_or("a session has a number from 1 to 64")?)
}

// Puts the pair in where it isn't there.
fn put(rows: &mut CellRows, s: Session, cell: Cell, row: u32) -> Result<(), Fail> {
    rows.reserve(1)?;
    if !rows.present((cell, row)) {
        rows.put_reserved(s, (cell, row));
    }
    Ok(())
}

// Writes where the pair is there and no other session is the writer.
fn write(rows: &mut CellRows, s: Session, cell: Cell, row: u32, mark: Option<Mark>) {
    let is_free = match rows.writer((cell, row)) {
        None => true,
        Some(other) => other == s,
    };
    if rows.present((cell, row)) && is_free {
        rows.write(s, (cell, row), mark);
    }
}

// Marks of the rows 7 and 9 in cell 0, which is the one cell that needs no grid, and committed.
fn two_marks(alloc: Global, s: Session) -> Result<CellRows, Fail> {
    let mut rows = CellRows::new(alloc);
    put(&mut rows, s, Cell::outside(), 7)?;
    put(&mut rows, s, Cell::outside(), 9)?;
    write(&mut rows, s, Cell::outside(), 7, Some(Mark::Part));
    write(&mut rows, s, Cell::outside(), 9, Some(Mark::Cover));
    rows.keep(s);
    Ok(rows)
}

#[test]
fn keys_of_pairs(rt: HostRuntime) -> Result<(), Fail> {
    let cell = Cell::outside();
    let rows = two_marks(rt.alloc(), session(1)?)?;
    assert!(rt; rows.present((cell, 7)));
    assert_eq!(rt; rows.first_at((cell, 8)), Key::Cell(cell, 9));
    assert_eq!(rt; rows.next_key((cell, 7)), Key::Cell(cell, 9));
    assert_eq!(rt; rows.next_key((cell, 9)), Key::CellEnd);
    Ok(())
}

#[test]
fn no_pairs(rt: HostRuntime) -> Result<(), Fail> {
    let rows = CellRows::new(rt.alloc());
    assert_eq!(rt; rows.first_at((Cell::outside(), 0)), Key::CellEnd);
    assert!(rt; !rows.present((Cell::outside(), 7)));
    Ok(())
}

// A session sees what it wrote, and another sees what is committed.
#[test]
fn what_is_seen(rt: HostRuntime) -> Result<(), Fail> {
    let (first, second) = (session(1)?, session(2)?);
    let mut rows = two_marks(rt.alloc(), first)?;
    write(&mut rows, first, Cell::outside(), 9, None);
    let own = rows.visible(first, (Cell::outside(), 9)).copied();
    let other = rows.visible(second, (Cell::outside(), 9)).copied();
    assert_eq!(rt; own, None);
    assert_eq!(rt; other, Some(Mark::Cover));
    Ok(())
}

#[test]
fn cells_of_a_row(rt: HostRuntime) -> Result<(), Fail> {
    let cell = Cell::outside();
    let first = session(1)?;
    let rows = two_marks(rt.alloc(), first)?;
    assert_eq!(rt; rows.cell_of(first, 9, None), Some((cell, Mark::Cover)));
    assert_eq!(rt; rows.cell_of(first, 9, Some(cell)), None);
    assert_eq!(rt; rows.cell_of(first, 8, None), None);
    Ok(())
}

// A session leaves a cell in which nothing is committed and comes back: the pair stays there all the time.
#[test]
fn comes_back(rt: HostRuntime) -> Result<(), Fail> {
    let (cell, first) = (Cell::outside(), session(1)?);
    let mut rows = CellRows::new(rt.alloc());
    put(&mut rows, first, cell, 7)?;
    write(&mut rows, first, cell, 7, Some(Mark::Part));
    write(&mut rows, first, cell, 7, None);
    assert_eq!(rt; rows.cell_of(first, 7, None), None);
    assert!(rt; rows.present((cell, 7)));
    write(&mut rows, first, cell, 7, Some(Mark::Cover));
    assert_eq!(rt; rows.cell_of(first, 7, None), Some((cell, Mark::Cover)));
    rows.undo(first);
    assert!(rt; !rows.present((cell, 7)));
    Ok(())
}

#[test]
fn keeps(rt: HostRuntime) -> Result<(), Fail> {
    let second = session(2)?;
    let mut rows = two_marks(rt.alloc(), session(1)?)?;
    write(&mut rows, second, Cell::outside(), 9, None);
    rows.keep(second);
    assert!(rt; !rows.present((Cell::outside(), 9)));
    assert!(rt; rows.present((Cell::outside(), 7)));
    Ok(())
}

#[test]
fn undoes(rt: HostRuntime) -> Result<(), Fail> {
    let second = session(2)?;
    let mut rows = two_marks(rt.alloc(), session(1)?)?;
    write(&mut rows, second, Cell::outside(), 9, None);
    put(&mut rows, second, Cell::outside(), 8)?;
    rows.undo(second);
    assert!(rt; !rows.present((Cell::outside(), 8)));
    assert_eq!(rt;
        rows.cell_of(second, 9, None),
        Some((Cell::outside(), Mark::Cover))
    );
    Ok(())
}

// A pair that is committed from the first.
#[test]
fn puts_committed(rt: HostRuntime) -> Result<(), Fail> {
    let cell = Cell::outside();
    let mut rows = CellRows::new(rt.alloc());
    rows.reserve(1)?;
    if !rows.present((cell, 7)) {
        rows.put_kept((cell, 7), Mark::Cover);
    }
    assert!(rt; rows.writer((cell, 7)).is_none());
    assert_eq!(rt;
        rows.cell_of(session(1)?, 7, None),
        Some((cell, Mark::Cover))
    );
    Ok(())
}

// Many rows in one cell.
#[test]
fn many_pairs(rt: HostRuntime) -> Result<(), Fail> {
    let s = session(1)?;
    let cell = Cell::outside();
    let mut rows = CellRows::new(rt.alloc());
    for k in 0..300u32 {
        put(&mut rows, s, cell, 299 - k)?;
    }
    assert_eq!(rt; rows.first_at((cell, 0)), Key::Cell(cell, 0));
    assert_eq!(rt; rows.next_key((cell, 150)), Key::Cell(cell, 151));
    assert_eq!(rt; rows.next_key((cell, 299)), Key::CellEnd);
    Ok(())
}

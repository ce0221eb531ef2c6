// What sessions did, read from the labels.
use crate::tests::labels;
use std::test::Fail;

/// What is printed of a phantom that waits.
const PHANTOM: &[u8] = b"commit 1 session 1 transaction 1
  keys
  keys
commit 2 session 2 transaction 1
  inserted
rows 1
  1 POINT (5 5)
labels 14
  session 1 begin 1
  session 1 ask 1
  session 1 take cell end RangeS-S
  session 1 answer keys
  session 2 begin 1
  session 2 ask 1
  session 2 put row 1 X
  session 2 wait cell end RangeI-N for 1
  session 1 ask 2
  session 1 answer keys
  session 1 commit 1
  session 2 put cell 0.2.0.10 row 1 X
  session 2 answer inserted
  session 2 commit 2
";

#[test]
fn a_phantom_that_waits(rt: HostRuntime) -> Result<(), Fail> {
    labels(
        &rt,
        rt.alloc(),
        b"grid 0 0 80 80 low low low low\n\
          session 1\n\
          begin\n\
          select intersects POINT (5 5)\n\
          select intersects POINT (5 5)\n\
          commit\n\
          session 2\n\
          begin\n\
          insert 1 POINT (5 5)\n\
          commit\n\
          schedule 1 1 1 1 2 2 2 2 1 1\n",
        PHANTOM,
    )
}

/// What is printed of a cell of four levels.
const CELL: &[u8] = b"commit 1 session 1 transaction 1
  inserted
rows 1
  1 POINT (250 100)
labels 6
  session 1 begin 1
  session 1 ask 1
  session 1 put row 1 X
  session 1 put cell 32.0.13.16 row 1 X
  session 1 answer inserted
  session 1 commit 1
";

#[test]
fn a_cell_of_four_levels(rt: HostRuntime) -> Result<(), Fail> {
    labels(
        &rt,
        rt.alloc(),
        b"grid 0 0 500 200\n\
          session 1\n\
          begin\n\
          insert 1 POINT (250 100)\n\
          commit\n",
        CELL,
    )
}

/// What is printed of a level above the limit.
const LEVEL: &[u8] = b"commit 1 session 1 transaction 1
  inserted
rows 1
  1 POLYGON ((0 0, 80 0, 80 80, 0 80, 0 0))
labels 21
  session 1 begin 1
  session 1 ask 1
  session 1 put row 1 X
  session 1 put cell 0 row 1 X
  session 1 put cell 1 row 1 X
  session 1 put cell 2 row 1 X
  session 1 put cell 3 row 1 X
  session 1 put cell 4 row 1 X
  session 1 put cell 5 row 1 X
  session 1 put cell 6 row 1 X
  session 1 put cell 7 row 1 X
  session 1 put cell 8 row 1 X
  session 1 put cell 9 row 1 X
  session 1 put cell 10 row 1 X
  session 1 put cell 11 row 1 X
  session 1 put cell 12 row 1 X
  session 1 put cell 13 row 1 X
  session 1 put cell 14 row 1 X
  session 1 put cell 15 row 1 X
  session 1 answer inserted
  session 1 commit 1
";

#[test]
fn a_level_above_the_limit(rt: HostRuntime) -> Result<(), Fail> {
    labels(
        &rt,
        rt.alloc(),
        b"grid 0 0 80 80 low low low low 1\n\
          session 1\n\
          begin\n\
          insert 1 POLYGON ((0 0, 80 0, 80 80, 0 80, 0 0))\n\
          commit\n",
        LEVEL,
    )
}

/// What is printed of a gap of its own.
const GAP: &[u8] = b"commit 1 session 1 transaction 1
  keys
  inserted
  keys
commit 2 session 2 transaction 1
  inserted
rows 3
  4 POINT (5 5)
  6 POINT (6 6)
  9 POINT (0 0)
labels 18
  session 1 begin 1
  session 1 ask 1
  session 1 take row 9 RangeS-S
  session 1 take row end RangeS-S
  session 1 answer keys
  session 1 ask 2
  session 1 put row 6 RangeX-X
  session 1 answer inserted
  session 2 begin 1
  session 2 ask 1
  session 2 wait row 6 RangeI-N for 1
  session 1 ask 3
  session 1 take row 6 RangeS-S
  session 1 answer keys
  session 1 commit 1
  session 2 put row 4 X
  session 2 answer inserted
  session 2 commit 2
";

#[test]
fn a_gap_of_its_own(rt: HostRuntime) -> Result<(), Fail> {
    labels(
        &rt,
        rt.alloc(),
        b"row 9 POINT (0 0)\n\
          session 1\n\
          begin\n\
          select intersects POINT (5 5)\n\
          insert 6 POINT (6 6)\n\
          select intersects POINT (5 5)\n\
          commit\n\
          session 2\n\
          begin\n\
          insert 4 POINT (5 5)\n\
          commit\n\
          schedule 1 1 1 1 1 1 1 1 2 2 2\n",
        GAP,
    )
}

/// What is printed of empty shapes.
const EMPTIES: &[u8] = b"commit 1 session 1 transaction 1
  shape POINT EMPTY
  keys
  keys
  keys
rows 1
  1 POINT EMPTY
labels 12
  session 1 begin 1
  session 1 ask 1
  session 1 take row 1 S
  session 1 answer shape POINT EMPTY
  session 1 ask 2
  session 1 take cell end RangeS-S
  session 1 answer keys
  session 1 ask 3
  session 1 answer keys
  session 1 ask 4
  session 1 answer keys
  session 1 commit 1
";

#[test]
fn empty_shapes(rt: HostRuntime) -> Result<(), Fail> {
    labels(
        &rt,
        rt.alloc(),
        b"grid 0 0 8 8\n\
          row 1 POINT EMPTY\n\
          session 1\n\
          begin\n\
          get 1\n\
          select intersects POINT (1 1)\n\
          select intersects POLYGON EMPTY\n\
          filter LINESTRING EMPTY\n\
          commit\n",
        EMPTIES,
    )
}

/// What is printed of the last cell.
const LAST: &[u8] = b"commit 1 session 1 transaction 1
  inserted
rows 1
  4294967295 POINT (16000000 -16000000)
labels 6
  session 1 begin 1
  session 1 ask 1
  session 1 put row 4294967295 X
  session 1 put cell 255.255.255.255 row 4294967295 X
  session 1 answer inserted
  session 1 commit 1
";

#[test]
fn the_last_cell(rt: HostRuntime) -> Result<(), Fail> {
    labels(
        &rt,
        rt.alloc(),
        b"grid -16000000 -16000000 16000000 16000000 high high high high 8192\n\
          session 1\n\
          begin\n\
          insert 4294967295 POINT (16000000 -16000000)\n\
          commit\n",
        LAST,
    )
}

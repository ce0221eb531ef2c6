// Predicates and deletes of shapes, without a grid.
use crate::tests::prints;
use std::test::Fail;

#[test]
fn a_hole_and_what_fills_it(rt: HostRuntime) -> Result<(), Fail> {
    prints(
        &rt,
        rt.alloc(),
        b"row 1 POLYGON ((0 0, 10 0, 10 10, 0 10, 0 0), (3 3, 7 3, 7 7, 3 7, 3 3))\n\
          session 1\n\
          begin\n\
          select contains POLYGON ((3 3, 7 3, 7 7, 3 7, 3 3))\n\
          select touches POLYGON ((3 3, 7 3, 7 7, 3 7, 3 3))\n\
          select intersects POLYGON ((3 3, 7 3, 7 7, 3 7, 3 3))\n\
          commit\n",
        b"commit 1 session 1 transaction 1\n  keys\n  keys 1\n  keys 1\nrows 1\n  1 POLYGON ((0 0, 10 0, 10 10, 0 10, 0 0), (3 3, 7 3, 7 7, 3 7, 3 3))\n",
    )
}

#[test]
fn squares_at_a_corner(rt: HostRuntime) -> Result<(), Fail> {
    prints(
        &rt,
        rt.alloc(),
        b"row 1 POLYGON ((0 0, 4 0, 4 4, 0 4, 0 0))\n\
          session 1\n\
          begin\n\
          select intersects POLYGON ((4 4, 8 4, 8 8, 4 8, 4 4))\n\
          select touches POLYGON ((4 4, 8 4, 8 8, 4 8, 4 4))\n\
          select contains POLYGON ((4 4, 8 4, 8 8, 4 8, 4 4))\n\
          commit\n",
        b"commit 1 session 1 transaction 1\n  keys 1\n  keys 1\n  keys\nrows 1\n  1 POLYGON ((0 0, 4 0, 4 4, 0 4, 0 0))\n",
    )
}

#[test]
fn the_line_around_a_square(rt: HostRuntime) -> Result<(), Fail> {
    prints(
        &rt,
        rt.alloc(),
        b"row 1 POLYGON ((0 0, 4 0, 4 4, 0 4, 0 0))\n\
          session 1\n\
          begin\n\
          select intersects LINESTRING (0 0, 4 0, 4 4, 0 4, 0 0)\n\
          select touches LINESTRING (0 0, 4 0, 4 4, 0 4, 0 0)\n\
          select contains LINESTRING (0 0, 4 0, 4 4, 0 4, 0 0)\n\
          commit\n",
        b"commit 1 session 1 transaction 1\n  keys 1\n  keys 1\n  keys\nrows 1\n  1 POLYGON ((0 0, 4 0, 4 4, 0 4, 0 0))\n",
    )
}

#[test]
fn points_within_a_crown(rt: HostRuntime) -> Result<(), Fail> {
    prints(
        &rt,
        rt.alloc(),
        b"row 1 POINT (-2 4)\n\
          row 2 POINT (2 4)\n\
          row 3 POINT (-1 8)\n\
          row 4 POINT (4 8)\n\
          row 5 POINT (4 3)\n\
          session 1\n\
          begin\n\
          select within POLYGON ((0 0, 4 4, 8 0, 9 4, 8 8, 0 8, 0 0))\n\
          select intersects POLYGON ((0 0, 4 4, 8 0, 9 4, 8 8, 0 8, 0 0))\n\
          select touches POLYGON ((0 0, 4 4, 8 0, 9 4, 8 8, 0 8, 0 0))\n\
          commit\n",
        b"commit 1 session 1 transaction 1\n  keys 2\n  keys 2 4\n  keys 4\nrows 5\n  1 POINT (-2 4)\n  2 POINT (2 4)\n  3 POINT (-1 8)\n  4 POINT (4 8)\n  5 POINT (4 3)\n",
    )
}

#[test]
fn lines_between_far_corners(rt: HostRuntime) -> Result<(), Fail> {
    prints(
        &rt,
        rt.alloc(),
        b"row 1 LINESTRING (-16000000 -16000000, 16000000 15999999)\n\
          session 1\n\
          begin\n\
          select intersects LINESTRING (-16000000 -15999999, 16000000 15999998)\n\
          select touches LINESTRING (-16000000 -15999999, 16000000 15999998)\n\
          select intersects LINESTRING (-16000000 -15999999, 16000000 16000000)\n\
          commit\n",
        b"commit 1 session 1 transaction 1\n  keys 1\n  keys\n  keys\nrows 1\n  1 LINESTRING (-16000000 -16000000, 16000000 15999999)\n",
    )
}

#[test]
fn rows_deleted_and_back(rt: HostRuntime) -> Result<(), Fail> {
    prints(
        &rt,
        rt.alloc(),
        b"row 1 POINT (1 1)\n\
          row 2 POINT (9 9)\n\
          session 1\n\
          begin\n\
          delete where intersects POLYGON ((0 0, 4 0, 4 4, 0 4, 0 0))\n\
          get 1\n\
          rollback\n\
          begin\n\
          get 1\n\
          get 7\n\
          delete 7\n\
          commit\n",
        b"commit 1 session 1 transaction 2\n  shape POINT (1 1)\n  none\n  missing\nrolled back session 1 transaction 1\nrows 2\n  1 POINT (1 1)\n  2 POINT (9 9)\n",
    )
}

#[test]
fn rows_deleted(rt: HostRuntime) -> Result<(), Fail> {
    prints(
        &rt,
        rt.alloc(),
        b"row 1 POINT (1 1)\n\
          row 2 POINT (9 9)\n\
          session 1\n\
          begin\n\
          delete where intersects POLYGON ((0 0, 4 0, 4 4, 0 4, 0 0))\n\
          get 1\n\
          commit\n\
          begin\n\
          get 1\n\
          get 7\n\
          delete 7\n\
          commit\n",
        b"commit 1 session 1 transaction 1\n  deleted 1\n  none\ncommit 2 session 1 transaction 2\n  none\n  none\n  missing\nrows 1\n  2 POINT (9 9)\n",
    )
}

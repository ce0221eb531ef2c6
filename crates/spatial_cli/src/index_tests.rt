// Answers of tables with a grid.
use crate::tests::prints;
use std::test::Fail;

#[test]
fn distances_through_an_index(rt: HostRuntime) -> Result<(), Fail> {
    prints(
        &rt,
        rt.alloc(),
        b"grid 0 0 80 80\n\
          row 1 POINT (0 0)\n\
          session 1\n\
          begin\n\
          select distance < 5 POINT (3 4)\n\
          select distance <= 5 POINT (3 4)\n\
          plan distance <= 5 POINT (3 4)\n\
          commit\n",
        b"commit 1 session 1 transaction 1\n  keys\n  keys 1\n  plan 1 0 1 keys 1\nrows 1\n  1 POINT (0 0)\n",
    )
}

#[test]
fn shapes_outside_the_box(rt: HostRuntime) -> Result<(), Fail> {
    prints(
        &rt,
        rt.alloc(),
        b"grid 0 0 8 8\n\
          row 1 POINT (100 100)\n\
          row 2 LINESTRING (4 4, 20 4)\n\
          session 1\n\
          begin\n\
          filter POINT (200 200)\n\
          select intersects POINT (200 200)\n\
          plan intersects POINT (100 100)\n\
          commit\n",
        b"commit 1 session 1 transaction 1\n  keys 1 2\n  keys\n  plan 2 0 2 keys 1\nrows 2\n  1 POINT (100 100)\n  2 LINESTRING (4 4, 20 4)\n",
    )
}

#[test]
fn a_sure_row(rt: HostRuntime) -> Result<(), Fail> {
    prints(
        &rt,
        rt.alloc(),
        b"grid 0 0 80 80 low low low low 1\n\
          row 1 POLYGON ((0 0, 80 0, 80 80, 0 80, 0 0))\n\
          session 1\n\
          begin\n\
          plan intersects POINT (5 5)\n\
          commit\n",
        b"commit 1 session 1 transaction 1\n  plan 1 1 0 keys 1\nrows 1\n  1 POLYGON ((0 0, 80 0, 80 80, 0 80, 0 0))\n",
    )
}

#[test]
fn a_filter_is_coarse(rt: HostRuntime) -> Result<(), Fail> {
    prints(
        &rt,
        rt.alloc(),
        b"grid 0 0 16000000 16000000 low low low low\n\
          row 1 POINT (10 10)\n\
          session 1\n\
          begin\n\
          filter POINT (20 20)\n\
          select intersects POINT (20 20)\n\
          commit\n",
        b"commit 1 session 1 transaction 1\n  keys 1\n  keys\nrows 1\n  1 POINT (10 10)\n",
    )
}

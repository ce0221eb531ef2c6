// Two sessions that wait for each other.
use crate::tests::prints;
use std::alloc::Global;
use std::process::Abort;
use std::sync::Wait;
use std::test::Fail;
use std::thread::Threads;

/// Two sessions, of which the first has this line, update the same two rows crosswise, and the script prints this text.
fn crosswise<R: Abort + Threads + Wait + Sync>(
    rt: &R,
    alloc: Global,
    first: &[u8],
    text: &[u8],
) -> Result<(), Fail> {
    let mut script = Vec::from_slice(alloc, b"row 1 POINT (1 1)\nrow 2 POINT (2 2)\n")?;
    script.extend_from_slice(first)?;
    script.extend_from_slice(b"begin\nupdate 1 POINT (10 10)\nupdate 2 POINT (20 20)\ncommit\n")?;
    script.extend_from_slice(
        b"session 2\nbegin\nupdate 2 POINT (30 30)\nupdate 1 POINT (40 40)\ncommit\n",
    )?;
    script.extend_from_slice(b"schedule 1 1 1 1 2 2 2 2 1 1 2 2\n")?;
    prints(rt, alloc, script.as_slice(), text)
}

#[test]
fn a_deadlock_has_a_victim(rt: HostRuntime) -> Result<(), Fail> {
    crosswise(
        &rt,
        rt.alloc(),
        b"session 1\n",
        b"commit 1 session 1 transaction 1\n  done\n  done\nvictim session 2 transaction 1 cycle 1 2\nrows 2\n  1 POINT (10 10)\n  2 POINT (20 20)\n",
    )
}

#[test]
fn the_victim_has_the_lowest_priority(rt: HostRuntime) -> Result<(), Fail> {
    crosswise(
        &rt,
        rt.alloc(),
        b"session 1 priority -1\n",
        b"commit 1 session 2 transaction 1\n  done\n  done\nvictim session 1 transaction 1 cycle 1 2\nrows 2\n  1 POINT (40 40)\n  2 POINT (30 30)\n",
    )
}

use crate::{Rank, Ranks, Waits, victim};
use sg_modes::{Session, Sessions};
use std::process::Abort;

fn session(rt: &impl Abort, number: u8) -> Session {
    Session::new(number).expect(rt, "from 1 to 64")
}

fn set(rt: &impl Abort, numbers: &[u8]) -> Sessions {
    let mut all = Sessions::none();
    for number in numbers {
        all = all.with(session(rt, *number));
    }
    all
}

fn wait(rt: &impl Abort, waits: &mut Waits, waiter: u8, blockers: &[u8]) {
    let s = session(rt, waiter);
    let blockers = set(rt, blockers);
    assert!(rt; !blockers.is_empty());
    assert!(rt; !blockers.has(s));
    assert!(rt; !waits.waits(s));
    waits.add(s, blockers);
}

#[test]
fn cycle_of_three(rt: HostRuntime) {
    let mut waits = Waits::new();
    wait(&rt, &mut waits, 1, &[2]);
    wait(&rt, &mut waits, 2, &[3, 4]);
    wait(&rt, &mut waits, 3, &[1]);
    assert_eq!(rt; waits.cycle(session(&rt, 1)), set(&rt, &[1, 2, 3]));
    assert_eq!(rt; waits.cycle(session(&rt, 4)), Sessions::none());
    assert!(rt; waits.waits(session(&rt, 2)) && !waits.waits(session(&rt, 4)));
    assert_eq!(rt; waits.blockers(session(&rt, 2)), set(&rt, &[3, 4]));
}

#[test]
fn fewest_steps(rt: HostRuntime) {
    let mut waits = Waits::new();
    wait(&rt, &mut waits, 1, &[2, 3]);
    wait(&rt, &mut waits, 2, &[4]);
    wait(&rt, &mut waits, 3, &[1]);
    wait(&rt, &mut waits, 4, &[1]);
    assert_eq!(rt; waits.cycle(session(&rt, 1)), set(&rt, &[1, 3]));
}

#[test]
fn least_number(rt: HostRuntime) {
    let mut waits = Waits::new();
    wait(&rt, &mut waits, 1, &[2, 3]);
    wait(&rt, &mut waits, 2, &[1]);
    wait(&rt, &mut waits, 3, &[1]);
    assert_eq!(rt; waits.cycle(session(&rt, 1)), set(&rt, &[1, 2]));
}

// After 1 the members 2 and 5 are each two waits from 1; 2 goes on to 4, as 3 isn't on a way back.
#[test]
fn longer_choice(rt: HostRuntime) {
    let mut waits = Waits::new();
    wait(&rt, &mut waits, 1, &[2, 5]);
    wait(&rt, &mut waits, 2, &[3, 4, 6]);
    wait(&rt, &mut waits, 4, &[1]);
    wait(&rt, &mut waits, 5, &[4]);
    wait(&rt, &mut waits, 6, &[1]);
    assert_eq!(rt; waits.cycle(session(&rt, 1)), set(&rt, &[1, 2, 4]));
    assert_eq!(rt; waits.cycle(session(&rt, 5)), set(&rt, &[1, 4, 5]));
}

#[test]
fn chain_of_63_waits(rt: HostRuntime) {
    let mut waits = Waits::new();
    for number in 1..64 {
        wait(&rt, &mut waits, number, &[number + 1]);
    }
    assert!(rt; waits.cycle(session(&rt, 1)).is_empty());
    assert!(rt; waits.cycle(session(&rt, 64)).is_empty());
    wait(&rt, &mut waits, 64, &[1]);
    assert_eq!(rt; waits.cycle(session(&rt, 64)), Sessions::all());
    assert_eq!(rt; waits.cycle(session(&rt, 6)), Sessions::all());
}

#[test]
fn first_blocker_ends(rt: HostRuntime) {
    let mut waits = Waits::new();
    wait(&rt, &mut waits, 1, &[2, 3]);
    wait(&rt, &mut waits, 2, &[1]);
    wait(&rt, &mut waits, 3, &[4]);
    waits.ended(session(&rt, 3));
    assert!(rt; !waits.waits(session(&rt, 1)));
    assert!(rt; waits.waits(session(&rt, 2)));
    assert!(rt; !waits.waits(session(&rt, 3)));
    assert!(rt; waits.cycle(session(&rt, 2)).is_empty());
}

#[test]
fn victims(rt: HostRuntime) {
    let cycle = set(&rt, &[1, 2, 3]);
    assert!(rt; !cycle.is_empty());
    // priorities and costs of sessions 1 to 3, and the victim
    for (ranks, chosen) in [
        ([(0, 2), (0, 1), (0, 1)], 3),
        ([(0, 1), (0, 2), (0, 2)], 1),
        ([(5, 0), (-10, 9), (5, 0)], 2),
        ([(-3, 4), (-3, 4), (-3, 5)], 2),
        ([(0, 0), (0, 0), (0, 0)], 3),
    ] {
        let mut by_session = Ranks::new();
        for ((priority, cost), number) in ranks.into_iter().zip([1, 2, 3]) {
            by_session.set(session(&rt, number), Rank { priority, cost });
        }
        assert_eq!(rt; victim(cycle, &by_session), session(&rt, chosen));
    }
}

#[test]
fn ranks_by_session(rt: HostRuntime) {
    let rank = Rank {
        priority: -4,
        cost: 7,
    };
    let mut ranks = Ranks::new();
    ranks.set(session(&rt, 64), rank);
    assert_eq!(rt; ranks.of(session(&rt, 64)), rank);
    assert_eq!(rt; ranks.of(session(&rt, 1)).cost, 0);
}

use super::*;
use std::process::Abort;
use std::test::Fail;

// Numbers as keys: each call, with pairs put in out of order.
#[test]
fn keeps_numbers_in_order(rt: HostRuntime) -> Result<(), Fail> {
    let mut pages: Pages<u32, u64> = Pages::new(rt.alloc());
    assert_eq!(rt; pages.len(), 0);
    assert_eq!(rt; pages.get(&30).copied(), None);
    pages.reserve(4)?;
    assert!(rt; pages.spare() >= 4);
    assert_eq!(rt; pages.insert_reserved(30, 3), None);
    assert_eq!(rt; pages.insert_reserved(10, 1), None);
    assert_eq!(rt; pages.insert_reserved(20, 2), None);
    assert_eq!(rt; pages.insert_reserved(20, 22), Some(2));
    assert_eq!(rt; pages.len(), 3);

    assert_eq!(rt; pages.get(&20).copied(), Some(22));
    assert_eq!(rt; pages.get(&15).copied(), None);
    assert_eq!(rt;
        pages.at_or_after(&20).map(|pair| (*pair.0, *pair.1)),
        Some((20, 22))
    );
    assert_eq!(rt;
        pages.after(&20).map(|pair| (*pair.0, *pair.1)),
        Some((30, 3))
    );
    assert_eq!(rt; pages.at_or_after(&11).map(|pair| *pair.0), Some(20));
    assert_eq!(rt; pages.after(&9).map(|pair| *pair.0), Some(10));
    assert_eq!(rt; pages.after(&30).map(|pair| *pair.0), None);
    assert_eq!(rt; pages.at_or_after(&31).map(|pair| *pair.0), None);

    if let Some(value) = pages.get_mut(&30) {
        *value = 33;
    }
    assert!(rt; pages.get_mut(&31).is_none());
    assert_eq!(rt; pages.remove(&30), Some(33));
    assert_eq!(rt; pages.remove(&30), None);
    assert_eq!(rt; pages.len(), 2);
    Ok(())
}

// Pairs of numbers as keys, ordered by the first and then by the second.
#[test]
fn keeps_pairs_in_order(rt: HostRuntime) -> Result<(), Fail> {
    let mut pages: Pages<(u16, u32), bool> = Pages::new(rt.alloc());
    pages.reserve(1)?;
    pages.reserve(3)?;
    for key in [(2, 1), (1, 9), (1, 0)] {
        pages.reserve(1)?;
        assert_eq!(rt; pages.insert_reserved(key, true), None);
    }
    assert_eq!(rt;
        pages.at_or_after(&(1, 1)).map(|pair| *pair.0),
        Some((1, 9))
    );
    assert_eq!(rt; pages.after(&(1, 9)).map(|pair| *pair.0), Some((2, 1)));
    assert_eq!(rt; pages.remove(&(1, 9)), Some(true));
    assert_eq!(rt; pages.get(&(1, 9)).copied(), None);
    assert_eq!(rt; pages.get(&(2, 1)).copied(), Some(true));
    Ok(())
}

// Keys put in out of order, in a tree of several levels.
#[test]
fn keeps_many_keys(rt: HostRuntime) -> Result<(), Fail> {
    empties_and_fills(&rt, rt.alloc(), 0, 5)
}

// The same with falling keys.
#[test]
fn keeps_falling_keys(rt: HostRuntime) -> Result<(), Fail> {
    empties_and_fills(&rt, rt.alloc(), 4095, 4095)
}

// Puts 4,096 keys in, takes the even ones out and then the others, and puts all in again.
fn empties_and_fills(rt: &impl Abort, alloc: Global, start: u32, step: u32) -> Result<(), Fail> {
    let mut pages: Pages<u32, u32> = Pages::new(alloc);
    fill(&mut pages, start, step)?;
    assert_eq!(rt; pages.len(), 4096);
    for k in 0..2048u32 {
        assert!(rt; pages.remove(&(2 * k)).is_some());
    }
    assert_eq!(rt; pages.len(), 2048);
    assert_eq!(rt; pages.at_or_after(&100).map(|pair| *pair.0), Some(101));
    assert!(rt; pages.after(&4095).is_none());
    assert_eq!(rt; pages.get(&5).copied(), Some(6));
    assert_eq!(rt; pages.get(&6).copied(), None);
    for k in 0..2048u32 {
        assert_eq!(rt; pages.remove(&(2 * k + 1)), Some(2 * k + 2));
    }
    assert_eq!(rt; pages.len(), 0);
    assert!(rt; pages.at_or_after(&0).is_none());
    fill(&mut pages, start, step)?;
    assert_eq!(rt; pages.len(), 4096);
    assert_eq!(rt; pages.after(&100).map(|pair| *pair.0), Some(101));
    Ok(())
}

// Puts the 4,096 keys in one by one, in steps modulo 4,096, each with the number after it.
fn fill(pages: &mut Pages<u32, u32>, start: u32, step: u32) -> Result<(), AllocError> {
    for k in 0..4096u32 {
        let key = step.wrapping_mul(k).wrapping_add(start) % 4096;
        pages.reserve(1)?;
        pages.insert_reserved(key, key + 1);
    }
    Ok(())
}

// A key taken out leaves room for another.
#[test]
fn keeps_room(rt: HostRuntime) -> Result<(), Fail> {
    let mut pages: Pages<u32, u32> = Pages::new(rt.alloc());
    pages.reserve(500)?;
    for k in 0..500u32 {
        pages.reserve(1)?;
        pages.insert_reserved(k, k);
    }
    for k in 0..500u32 {
        if pages.remove(&k).is_some() {
            pages.insert_reserved(1000 - k, k);
        }
    }
    assert_eq!(rt; pages.len(), 500);
    assert_eq!(rt; pages.at_or_after(&0).map(|pair| *pair.0), Some(501));
    Ok(())
}

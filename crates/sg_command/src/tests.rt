use crate::{Form, Words};
use std::alloc::Global;
use std::test::Fail;

/// What these words ask for.
fn form(alloc: Global, list: &[&[u8]]) -> Result<Option<Form>, Fail> {
    let mut words = Words::new(alloc);
    for word in list {
        words
            .push(Vec::from_slice(alloc, word)?)
            .map_err(|_| "no memory for a word")?;
    }
    Ok(words.form(alloc)?)
}

#[test]
fn words_are_kept(rt: HostRuntime) -> Result<(), Fail> {
    let alloc = rt.alloc();
    let mut words = Words::new(alloc);
    assert!(rt; words.len() == 0);
    words
        .push(Vec::from_slice(alloc, b"replay")?)
        .map_err(|_| "no memory for a word")?;
    assert!(rt; words.len() == 1);
    assert!(rt; words.at(0) == Some(b"replay".as_slice()));
    assert!(rt; words.at(1).is_none());
    Ok(())
}

#[test]
fn no_command(rt: HostRuntime) -> Result<(), Fail> {
    let alloc = rt.alloc();
    assert!(rt; form(alloc, &[])?.is_none());
    assert!(rt; form(alloc, &[b""])?.is_none());
    assert!(rt; form(alloc, &[b"help"])?.is_none());
    assert!(rt; form(alloc, &[b"--help"])?.is_none());
    assert!(rt; form(alloc, &[b"replay=1"])?.is_none());
    Ok(())
}

#[test]
fn replay_alone(rt: HostRuntime) -> Result<(), Fail> {
    let alloc = rt.alloc();
    let wanted = Form::Replay {
        workers: 1,
        labels: false,
    };
    assert!(rt; form(alloc, &[b"replay"])? == Some(wanted));
    assert!(rt; form(alloc, &[b"replay", b""])?.is_none());
    assert!(rt; form(alloc, &[b"replay", b"help"])?.is_none());
    assert!(rt; form(alloc, &[b"replay", b"--help"])?.is_none());
    Ok(())
}

#[test]
fn so_many_workers(rt: HostRuntime) -> Result<(), Fail> {
    let alloc = rt.alloc();
    let most = Form::Replay {
        workers: 64,
        labels: false,
    };
    assert!(rt; form(alloc, &[b"replay", b"--workers", b"64"])? == Some(most));
    assert!(rt; form(alloc, &[b"replay", b"--workers", b"65"])?.is_none());
    assert!(rt; form(alloc, &[b"replay", b"--workers", b"0"])?.is_none());
    assert!(rt; form(alloc, &[b"replay", b"--workers"])?.is_none());
    assert!(rt; form(alloc, &[b"replay", b"--workers=4"])?.is_none());
    Ok(())
}

#[test]
fn twenty_digits(rt: HostRuntime) -> Result<(), Fail> {
    let alloc = rt.alloc();
    let one = Form::Replay {
        workers: 1,
        labels: false,
    };
    assert!(rt; form(alloc, &[b"replay", b"--workers", b"00000000000000000001"])? == Some(one));
    assert!(rt; form(alloc, &[b"replay", b"--workers", b"000000000000000000001"])?.is_none());
    assert!(rt; form(alloc, &[b"replay", b"--workers", b"+5"])?.is_none());
    Ok(())
}

#[test]
fn options_in_any_order(rt: HostRuntime) -> Result<(), Fail> {
    let alloc = rt.alloc();
    let wanted = Form::Threads {
        workers: 2,
        labels: true,
        trace: true,
    };
    let first = form(
        alloc,
        &[b"threads", b"--workers", b"2", b"--labels", b"--trace"],
    )?;
    assert!(rt; first == Some(wanted));
    let last = form(
        alloc,
        &[b"threads", b"--trace", b"--labels", b"--workers", b"2"],
    )?;
    assert!(rt; last == Some(wanted));
    Ok(())
}

#[test]
fn options_once(rt: HostRuntime) -> Result<(), Fail> {
    let alloc = rt.alloc();
    let wanted = Form::Replay {
        workers: 1,
        labels: true,
    };
    assert!(rt; form(alloc, &[b"replay", b"--labels"])? == Some(wanted));
    assert!(rt; form(alloc, &[b"replay", b"--labels", b"--labels"])?.is_none());
    assert!(rt; form(alloc, &[b"replay", b"--trace"])?.is_none());
    assert!(rt; form(alloc, &[b"threads", b"--workers", b"2", b"--workers", b"2"])?.is_none());
    assert!(rt; form(alloc, &[b"threads", b"--workers", b"--labels", b"2"])?.is_none());
    Ok(())
}

#[test]
fn make_of_three_numbers(rt: HostRuntime) -> Result<(), Fail> {
    let alloc = rt.alloc();
    let wanted = Form::Make {
        seed: u64::MAX,
        rows: 5000,
        sessions: 64,
    };
    assert!(rt; form(alloc, &[b"make", b"18446744073709551615", b"5000", b"64"])? == Some(wanted));
    assert!(rt; form(alloc, &[b"make", b"18446744073709551616", b"5000", b"64"])?.is_none());
    assert!(rt; form(alloc, &[b"make", b"1", b"2"])?.is_none());
    assert!(rt; form(alloc, &[b"make", b"1", b"2", b"3", b"4"])?.is_none());
    assert!(rt; form(alloc, &[b"make", b"-1", b"1", b"1"])?.is_none());
    assert!(rt; form(alloc, &[b"make", b"1", b"--labels", b"1"])?.is_none());
    Ok(())
}

use crate::Aggregates;
use rk_model::{NoMemory, Prio, ThreadIx};
use std::test::Fail;

fn index(thread: u8) -> ThreadIx {
    ThreadIx::new(thread.clamp(1, 64))
}

fn level(prio: Option<Prio>) -> u8 {
    match prio {
        None => 0,
        Some(prio) => prio.level(),
    }
}

/// Lets a thread contribute to another in a cluster, whatever it contributed; nothing at level 0.
fn lend(shares: &mut Aggregates, thread: u8, cluster: u8, source: u8, level: u8) {
    let thread = index(thread);
    let source = index(source);
    let lent = shares.share(thread, cluster, source).is_some();
    if 4 <= cluster {} else if level == 0 {
        if lent {
            shares.remove(thread, cluster, source);
        }
    } else if lent {
        shares.change(thread, cluster, source, Prio::new(level));
    } else {
        shares.add(thread, cluster, source, Prio::new(level));
    }
}

/// The level of what a thread contributes to another in a cluster.
fn lent(shares: &Aggregates, thread: u8, cluster: u8, source: u8) -> u8 {
    level(shares.share(index(thread), cluster, index(source)))
}

/// The level of the least of the contributions.
fn least(shares: &Aggregates, thread: u8, cluster: u8) -> u8 {
    level(shares.least(index(thread), cluster))
}

#[test]
fn finds_what_was_added(rt: HostRuntime) -> Result<(), Fail> {
    let mut shares = Aggregates::new(rt.alloc()).map_err(|_: NoMemory| "memory")?;
    assert_eq!(rt; lent(&shares, 64, 3, 64), 0);
    assert_eq!(rt; least(&shares, 64, 3), 0);
    lend(&mut shares, 64, 3, 64, 7);
    lend(&mut shares, 1, 0, 1, 9);
    assert_eq!(rt; lent(&shares, 64, 3, 64), 7);
    assert_eq!(rt; lent(&shares, 1, 0, 1), 9);
    assert_eq!(rt; lent(&shares, 1, 0, 64), 0);
    assert_eq!(rt; lent(&shares, 64, 4, 64), 0);
    assert_eq!(rt; least(&shares, 64, 4), 0);
    Ok(())
}

#[test]
fn the_least_follows_its_sources(rt: HostRuntime) -> Result<(), Fail> {
    let mut shares = Aggregates::new(rt.alloc()).map_err(|_: NoMemory| "memory")?;
    for (source, level, expected) in [
        (5, 9, 9),
        (6, 3, 3),
        (7, 4, 3),
        (6, 0, 4),
        (5, 2, 2),
        (5, 8, 4),
        (7, 0, 8),
        (5, 0, 0),
    ] {
        lend(&mut shares, 2, 1, source, level);
        assert_eq!(rt; least(&shares, 2, 1), expected);
    }
    Ok(())
}

#[test]
fn clusters_are_apart(rt: HostRuntime) -> Result<(), Fail> {
    let mut shares = Aggregates::new(rt.alloc()).map_err(|_: NoMemory| "memory")?;
    lend(&mut shares, 2, 1, 5, 9);
    lend(&mut shares, 2, 2, 5, 4);
    lend(&mut shares, 3, 1, 5, 6);
    assert_eq!(rt; least(&shares, 2, 1), 9);
    assert_eq!(rt; least(&shares, 2, 2), 4);
    lend(&mut shares, 2, 2, 5, 0);
    assert_eq!(rt; least(&shares, 2, 1), 9);
    assert_eq!(rt; least(&shares, 2, 2), 0);
    assert_eq!(rt; least(&shares, 3, 1), 6);
    Ok(())
}

#[test]
fn knows_sources_and_targets(rt: HostRuntime) -> Result<(), Fail> {
    let mut shares = Aggregates::new(rt.alloc()).map_err(|_: NoMemory| "memory")?;
    lend(&mut shares, 2, 1, 5, 9);
    lend(&mut shares, 2, 1, 64, 9);
    lend(&mut shares, 2, 0, 6, 9);
    lend(&mut shares, 3, 1, 64, 9);
    let mut sources = shares.sources(index(2), 1);
    assert!(rt; matches!(sources.take_least(), Some(5)));
    assert!(rt; matches!(sources.take_least(), Some(64)));
    assert!(rt; sources.is_empty());
    let mut targets = shares.targets(index(64), 1);
    assert!(rt; matches!(targets.take_least(), Some(2)));
    assert!(rt; matches!(targets.take_least(), Some(3)));
    assert!(rt; targets.is_empty());
    lend(&mut shares, 2, 1, 64, 0);
    assert!(rt; !shares.sources(index(2), 1).contains(64));
    assert!(rt; !shares.targets(index(64), 1).contains(2));
    assert!(rt; shares.sources(index(2), 4).is_empty());
    Ok(())
}

use crate::{Change, Cluster, Moves};
use rk_model::{NoMemory, Prio, ThreadIx};
use std::test::Fail;

/// The thread of a processor; 0 where it has none.
fn thread_on(cluster: &Cluster, cpu: u8) -> u8 {
    if cpu < cluster.first() || cluster.first() + cluster.cpus() <= cpu {
        return 0;
    }
    match cluster.assigned(cpu) {
        Some(thread) => thread.at(),
        None => 0,
    }
}

/// The threads of processors 2 and 3; 0 where one has none.
fn threads_on(cluster: &Cluster) -> (u8, u8) {
    (thread_on(cluster, 2), thread_on(cluster, 3))
}

fn to_end(level: u8) -> Change {
    Change::ToEnd(Prio::new(level.max(1)))
}

fn to_front(level: u8) -> Change {
    Change::ToFront(Prio::new(level.max(1)))
}

fn stay(level: u8) -> Change {
    Change::Stay(Prio::new(level.max(1)))
}

/// Settles the cluster after these changes of threads 1 to 64.
fn settle(cluster: &mut Cluster, moves: &mut Moves, changes: &[(u8, Change)]) {
    moves.clear();
    for (thread, change) in changes {
        if 1 <= *thread && *thread <= 64 {
            moves.set(ThreadIx::new(*thread), *change);
        }
    }
    cluster.settle(moves);
}

#[test]
fn runners_take_the_free_processors_in_order(rt: HostRuntime) -> Result<(), Fail> {
    let mut moves = Moves::new(rt.alloc()).map_err(|_: NoMemory| "memory")?;
    let mut cluster = Cluster::new(rt.alloc(), 1, 2, 2).map_err(|_: NoMemory| "memory")?;
    assert_eq!(rt; threads_on(&cluster), (0, 0));
    settle(
        &mut cluster,
        &mut moves,
        &[(7, to_end(20)), (5, to_end(20)), (6, to_end(10))],
    );
    assert_eq!(rt; threads_on(&cluster), (6, 5), "the most urgent first");
    assert_eq!(rt; cluster.is_runner(ThreadIx::new(5)), true);
    assert_eq!(rt; cluster.is_runner(ThreadIx::new(7)), false);
    settle(&mut cluster, &mut moves, &[(6, stay(20)), (9, to_end(5))]);
    assert_eq!(rt;
        threads_on(&cluster),
        (9, 5),
        "a runner keeps its processor"
    );
    settle(
        &mut cluster,
        &mut moves,
        &[(9, Change::Leave), (5, Change::Leave), (7, Change::Leave)],
    );
    assert_eq!(rt; threads_on(&cluster), (6, 0), "those that leave are gone");
    Ok(())
}

#[test]
fn threads_go_to_the_front_and_to_the_end(rt: HostRuntime) -> Result<(), Fail> {
    let mut moves = Moves::new(rt.alloc()).map_err(|_: NoMemory| "memory")?;
    let mut cluster = Cluster::new(rt.alloc(), 0, 2, 2).map_err(|_: NoMemory| "memory")?;
    settle(
        &mut cluster,
        &mut moves,
        &[(5, to_end(20)), (6, to_end(10)), (7, to_end(20))],
    );
    settle(
        &mut cluster,
        &mut moves,
        &[(5, to_end(20)), (1, to_end(20))],
    );
    assert_eq!(rt; threads_on(&cluster), (6, 7), "woken threads go last");
    settle(
        &mut cluster,
        &mut moves,
        &[(7, to_front(30)), (6, to_front(30)), (1, to_front(30))],
    );
    assert_eq!(rt; threads_on(&cluster), (5, 1), "fronts are in rising index");
    Ok(())
}

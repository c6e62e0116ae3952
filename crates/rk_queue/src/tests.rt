ghost use Rattle.std.specs.Prelude.{◌≡◌, ◌≤◌};

use crate::ThreadQueue;
use rk_model::{NoMemory, Order, Prio, ThreadIx, Waiter};
use std::test::Fail;

/// A waiter of a thread, a cluster and a priority.
fn waiter(thread: u8, cluster: u8, prio: u8) -> Waiter
    requires low { 1 ≤ thread }
    requires high { thread ≤ 64 }
    requires level { 1 ≤ prio }
{
    Waiter {
        thread: ThreadIx::new(thread),
        cluster,
        prio: Prio::new(prio),
    }
}

/// Puts a waiter in, where its thread isn't in.
fn enter(queue: &mut ThreadQueue, waiter: Waiter) {
    if !queue.contains(waiter.thread) {
        queue.enqueue(waiter);
    }
}

/// Takes a thread out, where it is in.
fn leave(queue: &mut ThreadQueue, thread: ThreadIx) {
    if queue.contains(thread) {
        queue.extract(thread);
    }
}

#[test]
fn the_earliest_arrival_is_served(rt: HostRuntime) -> Result<(), Fail> {
    let mut queue = ThreadQueue::new(rt.alloc(), Order::Fifo).map_err(|_: NoMemory| "memory")?;
    assert_eq!(rt; queue.first(), None);
    enter(&mut queue, waiter(5, 0, 30));
    enter(&mut queue, waiter(64, 1, 10));
    enter(&mut queue, waiter(5, 2, 1));
    assert_eq!(rt; queue.len(), 2);
    assert_eq!(rt; queue.waiters()[1].thread, ThreadIx::new(64));
    assert_eq!(rt; queue.first(), Some(ThreadIx::new(5)));
    assert_eq!(rt; queue.take_first(), Some(ThreadIx::new(5)));
    assert_eq!(rt; queue.waits_from(0), false);
    assert_eq!(rt; queue.waits_from(1), true);
    assert_eq!(rt; queue.take_first(), Some(ThreadIx::new(64)));
    assert_eq!(rt; queue.take_first(), None);
    Ok(())
}

#[test]
fn clusters_take_turns(rt: HostRuntime) -> Result<(), Fail> {
    let mut queue = ThreadQueue::new(rt.alloc(), Order::Priority).map_err(|_: NoMemory| "memory")?;
    assert_eq!(rt; queue.take_first(), None);
    enter(&mut queue, waiter(1, 3, 20));
    enter(&mut queue, waiter(2, 0, 5));
    enter(&mut queue, waiter(3, 3, 10));
    enter(&mut queue, waiter(4, 3, 10));
    enter(&mut queue, waiter(6, 0, 5));
    for thread in [3, 2, 4, 6, 1] {
        assert_eq!(rt; queue.take_first(), Some(ThreadIx::new(thread)));
    }
    assert_eq!(rt; queue.take_first(), None);
    Ok(())
}

#[test]
fn a_cluster_keeps_its_turn_while_it_has_waiters(rt: HostRuntime) -> Result<(), Fail> {
    let mut queue = ThreadQueue::new(rt.alloc(), Order::Priority).map_err(|_: NoMemory| "memory")?;
    enter(&mut queue, waiter(1, 0, 20));
    enter(&mut queue, waiter(2, 1, 20));
    enter(&mut queue, waiter(3, 0, 20));
    leave(&mut queue, ThreadIx::new(1));
    assert_eq!(rt; queue.first(), Some(ThreadIx::new(3)));
    leave(&mut queue, ThreadIx::new(3));
    assert_eq!(rt; queue.waits_from(0), false);
    assert_eq!(rt; queue.first(), Some(ThreadIx::new(2)));
    enter(&mut queue, waiter(1, 0, 20));
    enter(&mut queue, waiter(7, 1, 30));
    let thread = ThreadIx::new(7);
    if queue.contains(thread) {
        queue.reorder(thread, Prio::new(19));
    }
    assert_eq!(rt; queue.take_first(), Some(ThreadIx::new(7)));
    assert_eq!(rt; queue.first(), Some(ThreadIx::new(1)));
    queue.reset(Order::Fifo);
    assert_eq!(rt; queue.first(), None);
    assert_eq!(rt; queue.waits_from(1), false);
    Ok(())
}

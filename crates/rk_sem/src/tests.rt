ghost use Rattle.std.specs.Prelude.{◌≡◌, ◌≤◌};
ghost use Rattle.rk_model.specs.declared.semaphore.Protocol.TheVariants.{NoProtocol};
ghost use Rattle.rk_places.specs.Stores.{IsOfGroup};

use crate::SemStore;
use rk_model::{
    Caller, NoMemory, Order, Prio, Protocol, Reply, SemKind, SemSpec, Status, ThreadIx, Wake,
    Wakes, Wish,
};
use std::test::Fail;

/// What a semaphore without a protocol is to be made with.
fn plain(count: u32, kind: SemKind, order: Order) -> SemSpec
    ensures { result.protocol ≡ NoProtocol }
{
    SemSpec {
        count,
        kind,
        order,
        protocol: Protocol::NoProtocol,
        ceiling: 0,
    }
}

/// A task of a cluster and a priority that calls.
fn caller(thread: u8, home: u8, prio: u8) -> Caller
    requires low { 1 ≤ thread }
    requires high { thread ≤ 64 }
    requires level { 1 ≤ prio }
    ensures { result ≡ record { thread = thread; home = home; prio = prio } }
{
    Caller {
        thread: ThreadIx::new(thread),
        home,
        prio: Prio::new(prio),
    }
}

/// Makes a semaphore, where none lives and a task can make it.
fn create(store: &mut SemStore, index: u16, spec: SemSpec, thread: u8)
    requires place { IsOfGroup store.old.group index }
    requires plain { spec.protocol ≡ NoProtocol }
    requires low { 1 ≤ thread }
    requires high { thread ≤ 64 }
    ensures { store.new.group ≡ store.old.group }
{
    if store.is_live(index) {
        return;
    }
    match SemStore::judge(spec, caller(thread, 0, 10)) {
        Status::Successful => store.create(index, spec, caller(thread, 0, 10)),
        _ => {}
    }
}

/// Obtains a semaphore for a task of a cluster and a priority, where one lives and the task doesn't wait
/// for it.
fn obtain(
    store: &mut SemStore,
    index: u16,
    thread: u8,
    home: u8,
    prio: u8,
    wish: Wish,
    closes: bool,
) -> Option<Reply>
    requires place { IsOfGroup store.old.group index }
    requires low { 1 ≤ thread }
    requires high { thread ≤ 64 }
    requires level { 1 ≤ prio }
    ensures { store.new.group ≡ store.old.group }
{
    if !store.is_live(index) || store.waits_at(index, ThreadIx::new(thread)) {
        return None;
    }
    Some(store.obtain(index, caller(thread, home, prio), wish, closes))
}

/// Releases a semaphore, where one lives.
fn release(store: &mut SemStore, index: u16, by: u8, wakes: &mut Wakes) -> Option<Reply>
    requires place { IsOfGroup store.old.group index }
    requires low { 1 ≤ by }
    requires high { by ≤ 64 }
    ensures { store.new.group ≡ store.old.group }
{
    wakes.clear();
    if store.is_live(index) {
        Some(store.release(index, ThreadIx::new(by), wakes))
    } else {
        None
    }
}

/// Flushes a semaphore, where one lives.
fn flush(store: &mut SemStore, index: u16, wakes: &mut Wakes) -> Option<Reply>
    requires { IsOfGroup store.old.group index }
    ensures { store.new.group ≡ store.old.group }
{
    wakes.clear();
    if store.is_live(index) {
        Some(store.flush(index, wakes))
    } else {
        None
    }
}

/// Ends the life of a semaphore, where one lives.
fn remove(store: &mut SemStore, index: u16, wakes: &mut Wakes) -> Option<Reply>
    requires { IsOfGroup store.old.group index }
    ensures { store.new.group ≡ store.old.group }
{
    wakes.clear();
    if store.is_live(index) {
        Some(store.remove(index, wakes))
    } else {
        None
    }
}

/// Gives a thread another priority in a queue with a level, or without one takes it out, where it waits
/// there.
fn change(store: &mut SemStore, index: u16, thread: ThreadIx, prio: Option<Prio>)
    requires { IsOfGroup store.old.group index }
    ensures { store.new.group ≡ store.old.group }
{
    if !store.is_live(index) || !store.waits_at(index, thread) {
        return;
    }
    match prio {
        None => store.extract(index, thread),
        Some(prio) => store.reorder(index, thread, prio),
    }
}

/// The answer with a status.
fn reply(status: Status) -> Option<Reply> {
    Some(Reply { status, out: 0 })
}

/// The wake of a thread with a status.
fn wake(thread: u8, status: Status) -> Option<Wake>
    requires low { 1 ≤ thread }
    requires high { thread ≤ 64 }
{
    Some(Wake {
        thread: ThreadIx::new(thread),
        status,
        out: 0,
    })
}

#[test]
fn the_first_condition_decides_over_a_create(rt: HostRuntime) -> Result<(), Fail> {
    for (count, kind, protocol, ceiling, status) in [
        (2, SemKind::Simple, Protocol::Inherit, 0, Status::NotDefined),
        (2, SemKind::Binary, Protocol::Mrsp, 0, Status::InvalidNumber),
        (0, SemKind::Binary, Protocol::Mrsp, 0, Status::InvalidNumber),
        (
            1,
            SemKind::Binary,
            Protocol::Mrsp,
            256,
            Status::InvalidPriority,
        ),
        (
            0,
            SemKind::Binary,
            Protocol::Ceiling,
            21,
            Status::InvalidPriority,
        ),
        (
            0,
            SemKind::Binary,
            Protocol::Ceiling,
            20,
            Status::Successful,
        ),
        (
            1,
            SemKind::Binary,
            Protocol::Ceiling,
            255,
            Status::Successful,
        ),
        (
            4_294_967_295,
            SemKind::Counting,
            Protocol::NoProtocol,
            0,
            Status::Successful,
        ),
    ] {
        let spec = SemSpec {
            count,
            kind,
            order: Order::Fifo,
            protocol,
            ceiling,
        };
        assert_eq!(rt; SemStore::judge(spec, caller(1, 0, 20)), status);
    }
    Ok(())
}

#[test]
fn a_binary_semaphore_is_that_of_its_owner(rt: HostRuntime) -> Result<(), Fail> {
    let mut store = SemStore::new(rt.alloc(), 0).map_err(|_: NoMemory| "memory")?;
    let mut wakes = Wakes::new(rt.alloc()).map_err(|_: NoMemory| "memory")?;
    assert_eq!(rt; store.group(), 0);
    create(&mut store, 1, plain(1, SemKind::Binary, Order::Priority), 1);
    assert_eq!(rt; store.is_live(1), true);
    assert_eq!(rt; store.is_live(61), false);
    assert_eq!(rt;
        release(&mut store, 1, 1, &mut wakes),
        reply(Status::NotOwnerOfResource)
    );
    assert_eq!(rt;
        obtain(&mut store, 1, 1, 0, 10, Wish::NoWait, false),
        reply(Status::Successful)
    );
    assert_eq!(rt;
        obtain(&mut store, 1, 1, 0, 10, Wish::NoWait, false),
        reply(Status::Successful)
    );
    assert_eq!(rt;
        obtain(&mut store, 1, 2, 1, 30, Wish::NoWait, true),
        reply(Status::Unsatisfied)
    );
    assert_eq!(rt;
        obtain(&mut store, 1, 2, 1, 30, Wish::Limit(0), true),
        reply(Status::IncorrectState)
    );
    assert_eq!(rt;
        obtain(&mut store, 1, 2, 1, 30, Wish::Limit(0), false),
        reply(Status::Waits)
    );
    assert_eq!(rt;
        obtain(&mut store, 1, 3, 0, 20, Wish::Limit(5), false),
        reply(Status::Waits)
    );
    assert_eq!(rt;
        obtain(&mut store, 1, 4, 1, 20, Wish::Limit(0), false),
        reply(Status::Waits)
    );
    assert_eq!(rt; store.waits_from(1, 1), true);
    assert_eq!(rt;
        remove(&mut store, 1, &mut wakes),
        reply(Status::ResourceInUse)
    );
    assert_eq!(rt;
        release(&mut store, 1, 1, &mut wakes),
        reply(Status::Successful)
    );
    assert_eq!(rt; store.owner(1), Some(ThreadIx::new(1)));
    // Cluster 1 has the first turn, and of it thread 4 is more urgent.
    assert_eq!(rt;
        release(&mut store, 1, 1, &mut wakes),
        reply(Status::Successful)
    );
    assert_eq!(rt; wakes.list().first().copied(), wake(4, Status::Successful));
    assert_eq!(rt; wakes.list().len(), 1);
    assert_eq!(rt; store.owner(1), Some(ThreadIx::new(4)));
    assert_eq!(rt;
        release(&mut store, 1, 4, &mut wakes),
        reply(Status::Successful)
    );
    assert_eq!(rt; store.owner(1), Some(ThreadIx::new(3)));
    change(&mut store, 1, ThreadIx::new(2), None);
    assert_eq!(rt; store.waits_from(1, 1), false);
    assert_eq!(rt;
        release(&mut store, 1, 3, &mut wakes),
        reply(Status::Successful)
    );
    assert_eq!(rt; store.owner(1), None);
    assert_eq!(rt;
        remove(&mut store, 1, &mut wakes),
        reply(Status::Successful)
    );
    assert_eq!(rt; store.is_live(1), false);
    Ok(())
}

#[test]
fn a_count_falls_and_rises(rt: HostRuntime) -> Result<(), Fail> {
    let mut store = SemStore::new(rt.alloc(), 3).map_err(|_: NoMemory| "memory")?;
    let mut wakes = Wakes::new(rt.alloc()).map_err(|_: NoMemory| "memory")?;
    create(
        &mut store,
        64,
        plain(4_294_967_295, SemKind::Counting, Order::Fifo),
        9,
    );
    assert_eq!(rt;
        release(&mut store, 64, 5, &mut wakes),
        reply(Status::Unsatisfied)
    );
    assert_eq!(rt;
        obtain(&mut store, 64, 9, 2, 10, Wish::NoWait, false),
        reply(Status::Successful)
    );
    assert_eq!(rt;
        release(&mut store, 64, 5, &mut wakes),
        reply(Status::Successful)
    );
    assert_eq!(rt;
        release(&mut store, 64, 5, &mut wakes),
        reply(Status::Unsatisfied)
    );
    assert_eq!(rt; store.owner(64), None);
    // A simple one is free or taken, however often it is released.
    create(&mut store, 60, plain(0, SemKind::Simple, Order::Fifo), 9);
    assert_eq!(rt;
        release(&mut store, 60, 5, &mut wakes),
        reply(Status::Successful)
    );
    assert_eq!(rt;
        release(&mut store, 60, 5, &mut wakes),
        reply(Status::Successful)
    );
    assert_eq!(rt;
        obtain(&mut store, 60, 9, 2, 10, Wish::NoWait, false),
        reply(Status::Successful)
    );
    assert_eq!(rt;
        obtain(&mut store, 60, 9, 2, 10, Wish::NoWait, false),
        reply(Status::Unsatisfied)
    );
    Ok(())
}

#[test]
fn all_waits_end(rt: HostRuntime) -> Result<(), Fail> {
    let mut store = SemStore::new(rt.alloc(), 1).map_err(|_: NoMemory| "memory")?;
    let mut wakes = Wakes::new(rt.alloc()).map_err(|_: NoMemory| "memory")?;
    create(&mut store, 2, plain(0, SemKind::Simple, Order::Priority), 9);
    assert_eq!(rt;
        obtain(&mut store, 2, 7, 2, 30, Wish::Limit(0), false),
        reply(Status::Waits)
    );
    assert_eq!(rt;
        obtain(&mut store, 2, 8, 2, 20, Wish::Limit(0), false),
        reply(Status::Waits)
    );
    assert_eq!(rt; flush(&mut store, 2, &mut wakes), reply(Status::Successful));
    assert_eq!(rt; wakes.list().first().copied(), wake(7, Status::Unsatisfied));
    assert_eq!(rt; wakes.list().get(1).copied(), wake(8, Status::Unsatisfied));
    assert_eq!(rt; store.waits_from(2, 2), false);
    assert_eq!(rt;
        obtain(&mut store, 2, 7, 2, 30, Wish::Limit(0), false),
        reply(Status::Waits)
    );
    assert_eq!(rt;
        obtain(&mut store, 2, 8, 2, 20, Wish::Limit(0), false),
        reply(Status::Waits)
    );
    change(&mut store, 2, ThreadIx::new(7), Some(Prio::new(10)));
    assert_eq!(rt;
        release(&mut store, 2, 1, &mut wakes),
        reply(Status::Successful)
    );
    assert_eq!(rt; wakes.list().first().copied(), wake(7, Status::Successful));
    assert_eq!(rt;
        remove(&mut store, 2, &mut wakes),
        reply(Status::Successful)
    );
    assert_eq!(rt;
        wakes.list().first().copied(),
        wake(8, Status::ObjectWasDeleted)
    );
    assert_eq!(rt; store.is_live(2), false);
    Ok(())
}

ghost use Rattle.std.specs.Prelude.{◌≡◌, ◌≢◌, ◌≤◌, true};
ghost use Rattle.rk_places.specs.Stores.{IsOfGroup};

use crate::{BarrierStore, receive};
use rk_model::{Caller, NoMemory, Prio, Reply, Status, ThreadIx, Wake, Wakes};
use std::test::Fail;

/// Makes a barrier, where none lives.
fn create(store: &mut BarrierStore, index: u16, automatic: bool, most: u32)
    requires place { IsOfGroup store.old.group index }
    requires some { automatic ≡ true → most ≢ 0 }
    ensures { store.new.group ≡ store.old.group }
{
    if !store.is_live(index) {
        store.create(index, automatic, most);
    }
}

/// Lets a thread wait at a barrier, where one lives and the thread doesn't wait there.
fn wait(store: &mut BarrierStore, index: u16, thread: ThreadIx, wakes: &mut Wakes) -> Option<Reply>
    requires place { IsOfGroup store.old.group index }
    ensures { store.new.group ≡ store.old.group }
{
    wakes.clear();
    if !store.is_live(index) || store.waits_at(index, thread) {
        return None;
    }
    let by = Caller {
        thread,
        home: 1,
        prio: Prio::new(10),
    };
    Some(store.wait(index, by, wakes))
}

/// Releases a barrier, where one lives.
fn release(store: &mut BarrierStore, index: u16, wakes: &mut Wakes) -> Option<Reply>
    requires place { IsOfGroup store.old.group index }
    ensures { store.new.group ≡ store.old.group }
{
    wakes.clear();
    if store.is_live(index) {
        Some(store.release(index, wakes))
    } else {
        None
    }
}

/// Ends the life of a barrier, where one lives.
fn remove(store: &mut BarrierStore, index: u16, wakes: &mut Wakes) -> Option<Reply>
    requires place { IsOfGroup store.old.group index }
    ensures { store.new.group ≡ store.old.group }
{
    wakes.clear();
    if store.is_live(index) {
        Some(store.remove(index, wakes))
    } else {
        None
    }
}

/// Takes a thread out of a barrier, where it waits at one that lives.
fn leave(store: &mut BarrierStore, index: u16, thread: ThreadIx)
    requires place { IsOfGroup store.old.group index }
    ensures { store.new.group ≡ store.old.group }
{
    if store.is_live(index) && store.waits_at(index, thread) {
        store.extract(index, thread);
    }
}

/// The wake of a thread with a status.
fn wake(thread: ThreadIx, status: Status) -> Option<Wake> {
    Some(Wake {
        thread,
        status,
        out: 0,
    })
}

/// The answer with a status and an out number.
fn reply(status: Status, out: u32) -> Option<Reply> {
    Some(Reply { status, out })
}

#[test]
fn wishes_seize_what_is_pending(rt: HostRuntime) -> Result<(), Fail> {
    for (pending, wanted, all, got) in [
        (0b0110, 0b0010, true, Some(0b0010)),
        (0b0110, 0b0011, true, None),
        (0b0110, 0b0011, false, Some(0b0010)),
        (0b0110, 0b1001, false, None),
    ] {
        assert_eq!(rt; receive(pending, wanted, all), got);
    }
    Ok(())
}

#[test]
fn a_barrier_is_released(rt: HostRuntime) -> Result<(), Fail> {
    let mut store = BarrierStore::new(rt.alloc(), 3).map_err(|_: NoMemory| "memory")?;
    let mut wakes = Wakes::new(rt.alloc()).map_err(|_: NoMemory| "memory")?;
    let first = ThreadIx::new(9);
    let second = ThreadIx::new(2);
    let third = ThreadIx::new(5);
    assert_eq!(rt; store.group(), 3);
    create(&mut store, 64, false, 0);
    assert_eq!(rt; store.is_live(64), true);
    assert_eq!(rt; store.is_live(60), false);
    assert_eq!(rt;
        wait(&mut store, 64, first, &mut wakes),
        reply(Status::Waits, 0)
    );
    assert_eq!(rt;
        wait(&mut store, 64, second, &mut wakes),
        reply(Status::Waits, 0)
    );
    assert_eq!(rt;
        wait(&mut store, 64, third, &mut wakes),
        reply(Status::Waits, 0)
    );
    assert_eq!(rt; store.waits_at(64, first), true);
    assert_eq!(rt; store.waits_from(64, 1), true);
    assert_eq!(rt; store.waits_from(64, 0), false);
    leave(&mut store, 64, second);
    assert_eq!(rt;
        release(&mut store, 64, &mut wakes),
        reply(Status::Successful, 2)
    );
    assert_eq!(rt;
        wakes.list().first().copied(),
        wake(first, Status::Successful)
    );
    assert_eq!(rt;
        wakes.list().get(1).copied(),
        wake(third, Status::Successful)
    );
    assert_eq!(rt; store.waits_from(64, 1), false);
    Ok(())
}

#[test]
fn an_automatic_barrier_is_released_by_its_last_waiter(rt: HostRuntime) -> Result<(), Fail> {
    let mut store = BarrierStore::new(rt.alloc(), 0).map_err(|_: NoMemory| "memory")?;
    let mut wakes = Wakes::new(rt.alloc()).map_err(|_: NoMemory| "memory")?;
    let first = ThreadIx::new(9);
    let second = ThreadIx::new(2);
    create(&mut store, 1, true, 2);
    create(&mut store, 5, true, 3);
    assert_eq!(rt; store.is_full(1), false);
    assert_eq!(rt;
        wait(&mut store, 1, first, &mut wakes),
        reply(Status::Waits, 0)
    );
    assert_eq!(rt; store.is_full(1), true);
    assert_eq!(rt;
        wait(&mut store, 1, second, &mut wakes),
        reply(Status::Successful, 0)
    );
    assert_eq!(rt; wakes.list().len(), 1);
    assert_eq!(rt;
        wakes.list().first().copied(),
        wake(first, Status::Successful)
    );
    assert_eq!(rt;
        wait(&mut store, 5, second, &mut wakes),
        reply(Status::Waits, 0)
    );
    assert_eq!(rt;
        remove(&mut store, 5, &mut wakes),
        reply(Status::Successful, 0)
    );
    assert_eq!(rt;
        wakes.list().first().copied(),
        wake(second, Status::ObjectWasDeleted)
    );
    assert_eq!(rt; store.is_live(5), false);
    assert_eq!(rt; store.is_live(1), true);
    Ok(())
}

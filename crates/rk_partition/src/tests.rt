ghost use Rattle.std.specs.Prelude.{◌≡◌};
ghost use Rattle.rk_places.specs.Stores.{IsOfGroup};

use crate::{PartitionStore, refusal};
use rk_model::limits::MOST_BUFFERS;
use rk_model::{NoMemory, Reply, Status};
use std::test::Fail;

/// Makes a partition, where none lives and its memory is in order.
fn create(store: &mut PartitionStore, index: u16, start: u32, length: u32, size: u32) -> Status
    requires { IsOfGroup store.old.group index }
    ensures { store.new.group ≡ store.old.group }
{
    if let Some(status) = refusal(start, length, size) {
        return status;
    }
    if !store.is_live(index) {
        store.create(index, start, length, size);
    }
    Status::Successful
}

/// Takes a buffer of a partition, where one lives.
fn get(store: &mut PartitionStore, index: u16) -> Option<Reply>
    requires { IsOfGroup store.old.group index }
    ensures { store.new.group ≡ store.old.group }
{
    if store.is_live(index) {
        Some(store.get(index))
    } else {
        None
    }
}

/// Returns a buffer to a partition, where one lives.
fn put_back(store: &mut PartitionStore, index: u16, address: u32) -> Option<Reply>
    requires { IsOfGroup store.old.group index }
    ensures { store.new.group ≡ store.old.group }
{
    if store.is_live(index) {
        Some(store.put_back(index, address))
    } else {
        None
    }
}

/// Ends the life of a partition, where one lives.
fn remove(store: &mut PartitionStore, index: u16) -> Option<Reply>
    requires { IsOfGroup store.old.group index }
    ensures { store.new.group ≡ store.old.group }
{
    if store.is_live(index) {
        Some(store.remove(index))
    } else {
        None
    }
}

/// The answer with a status and an out number.
fn reply(status: Status, out: u32) -> Option<Reply> {
    Some(Reply { status, out })
}

#[test]
fn memory_is_judged(rt: HostRuntime) -> Result<(), Fail> {
    for (start, length, size, status) in [
        (0, 0, 0, Status::InvalidAddress),
        (4, 0, 8, Status::InvalidSize),
        (4, 8, 0, Status::InvalidSize),
        (8, 8, 16, Status::InvalidSize),
        (8, 16, 12, Status::InvalidSize),
        (12, 16, 8, Status::InvalidAddress),
        (4_294_967_288, 9, 8, Status::InvalidAddress),
        (4_294_967_288, 8, 8, Status::Successful),
        (8, 4_294_967_288, 4_294_967_288, Status::Successful),
        (4_294_959_104, 8_192, 8, Status::Successful),
        (8, 8_199, 8, Status::Successful),
        (8, 8_200, 8, Status::InvalidSize),
        (4, 8_200, 8, Status::InvalidAddress),
    ] {
        assert_eq!(rt; PartitionStore::judge(start, length, size), status);
    }
    Ok(())
}

#[test]
fn the_buffer_that_is_returned_first_is_taken_first(rt: HostRuntime) -> Result<(), Fail> {
    let mut store = PartitionStore::new(rt.alloc(), 3).map_err(|_: NoMemory| "memory")?;
    assert_eq!(rt; store.group(), 3);
    assert_eq!(rt; create(&mut store, 64, 4_096, 60, 24), Status::Successful);
    assert_eq!(rt; store.is_live(64), true);
    assert_eq!(rt; store.is_live(60), false);
    assert_eq!(rt; get(&mut store, 64), reply(Status::Successful, 4_096));
    assert_eq!(rt; get(&mut store, 64), reply(Status::Successful, 4_120));
    assert_eq!(rt; get(&mut store, 64), reply(Status::Unsatisfied, 0));
    assert_eq!(rt;
        put_back(&mut store, 64, 4_120),
        reply(Status::Successful, 0)
    );
    assert_eq!(rt;
        put_back(&mut store, 64, 4_096),
        reply(Status::Successful, 0)
    );
    assert_eq!(rt; get(&mut store, 64), reply(Status::Successful, 4_120));
    assert_eq!(rt; get(&mut store, 64), reply(Status::Successful, 4_096));
    Ok(())
}

#[test]
fn only_what_is_out_is_taken_back(rt: HostRuntime) -> Result<(), Fail> {
    let mut store = PartitionStore::new(rt.alloc(), 0).map_err(|_: NoMemory| "memory")?;
    assert_eq!(rt; create(&mut store, 1, 4_096, 60, 24), Status::Successful);
    assert_eq!(rt; get(&mut store, 1), reply(Status::Successful, 4_096));
    for address in [4_072, 4_104, 4_120, 4_144] {
        assert_eq!(rt;
            put_back(&mut store, 1, address),
            reply(Status::InvalidAddress, 0)
        );
    }
    assert_eq!(rt; remove(&mut store, 1), reply(Status::ResourceInUse, 0));
    assert_eq!(rt; store.is_live(1), true);
    assert_eq!(rt;
        put_back(&mut store, 1, 4_096),
        reply(Status::Successful, 0)
    );
    assert_eq!(rt;
        put_back(&mut store, 1, 4_096),
        reply(Status::InvalidAddress, 0)
    );
    assert_eq!(rt; remove(&mut store, 1), reply(Status::Successful, 0));
    assert_eq!(rt; store.is_live(1), false);
    assert_eq!(rt; create(&mut store, 1, 8, 8, 8), Status::Successful);
    assert_eq!(rt; get(&mut store, 1), reply(Status::Successful, 8));
    Ok(())
}

#[test]
fn there_is_room_for_1024_buffers(rt: HostRuntime) -> Result<(), Fail> {
    let mut store = PartitionStore::new(rt.alloc(), 1).map_err(|_: NoMemory| "memory")?;
    let start = 4_294_959_104;
    assert_eq!(rt; create(&mut store, 2, start, 8_192, 8), Status::Successful);
    for taken in 0..MOST_BUFFERS as u32 {
        assert_eq!(rt;
            get(&mut store, 2),
            reply(Status::Successful, start + taken * 8)
        );
    }
    assert_eq!(rt; get(&mut store, 2), reply(Status::Unsatisfied, 0));
    for given in 0..MOST_BUFFERS as u32 {
        assert_eq!(rt;
            put_back(&mut store, 2, start + given * 8),
            reply(Status::Successful, 0)
        );
    }
    assert_eq!(rt; remove(&mut store, 2), reply(Status::Successful, 0));
    Ok(())
}

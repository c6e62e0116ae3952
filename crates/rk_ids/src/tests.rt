use crate::{IdError, Ids};
use rk_model::{Class, Id, Name, NoMemory};
use std::test::Fail;

fn name(bits: u32) -> Name {
    Name { bits }
}

#[test]
fn first_free_index_is_taken_and_freed_ones_go_last(rt: HostRuntime) -> Result<(), Fail> {
    let mut ids = Ids::new(rt.alloc(), Class::Task).map_err(|_: NoMemory| "memory")?;
    for index in 1..65 {
        assert_eq!(rt; ids.make(name(7)), Ok(Id::of(Class::Task, index)));
    }
    assert_eq!(rt; ids.make(name(7)), Err(IdError::TooMany));
    for index in [9, 3] {
        assert_eq!(rt; ids.is_live(index), true);
        if ids.is_live(index) {
            ids.give_back(index);
        }
        assert_eq!(rt; ids.is_live(index), false);
    }
    for index in [9, 3] {
        assert_eq!(rt; ids.make(name(8)), Ok(Id::of(Class::Task, index)));
    }
    assert_eq!(rt; ids.make(name(8)), Err(IdError::TooMany));
    Ok(())
}

#[test]
fn least_index_of_a_name_is_found(rt: HostRuntime) -> Result<(), Fail> {
    let mut ids = Ids::new(rt.alloc(), Class::Barrier).map_err(|_: NoMemory| "memory")?;
    assert_eq!(rt; ids.find(name(5)), None);
    for index in 1..65 {
        assert_eq!(rt; ids.make(name(6)), Ok(Id::of(Class::Barrier, index)));
    }
    for index in [40, 2] {
        if ids.is_live(index) {
            ids.give_back(index);
        }
    }
    assert_eq!(rt; ids.make(name(5)), Ok(Id::of(Class::Barrier, 40)));
    assert_eq!(rt; ids.find(name(5)), Some(Id::of(Class::Barrier, 40)));
    // The younger object has the lesser index.
    assert_eq!(rt; ids.make(name(5)), Ok(Id::of(Class::Barrier, 2)));
    assert_eq!(rt; ids.find(name(5)), Some(Id::of(Class::Barrier, 2)));
    assert_eq!(rt; ids.find(name(6)), Some(Id::of(Class::Barrier, 1)));
    assert_eq!(rt; ids.find(name(0)), None);
    Ok(())
}

#[test]
fn refusals_change_nothing(rt: HostRuntime) -> Result<(), Fail> {
    let mut ids = Ids::new(rt.alloc(), Class::Semaphore).map_err(|_: NoMemory| "memory")?;
    assert_eq!(rt; ids.make(name(0)), Err(IdError::InvalidName));
    assert_eq!(rt; ids.find(name(0)), None);
    assert_eq!(rt; ids.make(name(1)), Ok(Id::of(Class::Semaphore, 1)));
    for index in 2..65 {
        assert_eq!(rt; ids.make(name(1)), Ok(Id::of(Class::Semaphore, index)));
    }
    assert_eq!(rt; ids.make(name(2)), Err(IdError::TooMany));
    assert_eq!(rt; ids.make(name(0)), Err(IdError::InvalidName));
    assert_eq!(rt; ids.find(name(2)), None);
    if ids.is_live(64) {
        ids.give_back(64);
    }
    assert_eq!(rt; ids.make(name(2)), Ok(Id::of(Class::Semaphore, 64)));
    Ok(())
}

#[test]
fn ids_of_live_objects_of_the_class_have_an_index(rt: HostRuntime) -> Result<(), Fail> {
    let mut ids = Ids::new(rt.alloc(), Class::Period).map_err(|_: NoMemory| "memory")?;
    assert_eq!(rt; ids.make(name(1)), Ok(Id { bits: 0x4201_0001 }));
    for (bits, index) in [
        (0x4201_0001, Some(1)),
        (0x4201_0002, None),
        (0x4201_0000, None),
        (0x0a01_0001, None),
        (0, None),
    ] {
        assert_eq!(rt; ids.index_of(Id { bits }), index);
    }
    if ids.is_live(1) {
        ids.give_back(1);
    }
    assert_eq!(rt; ids.index_of(Id { bits: 0x4201_0001 }), None);
    Ok(())
}

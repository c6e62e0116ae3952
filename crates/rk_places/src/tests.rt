ghost use Rattle.std.specs.Prelude.{◌≡◌, ◌<◌, IfOk};
ghost use Rattle.rk_places.specs.Stores.{IsFull};

use crate::{PLACES, Places};
use rk_model::NoMemory;
use std::alloc::Global;
use std::test::Fail;

/// The places of a group, where the numbers 0 to 15 stand.
fn numbered(alloc: Global, group: u8) -> Result<Places<u32>, NoMemory>
    requires { group < 4 }
    ensures full { IfOk result IsFull }
    ensures group { IfOk result (λ places. places.group ≡ group) }
{
    let mut places = Places::new(alloc, group)?;
    for number in 0..PLACES {
        places.push(number as u32);
    }
    Ok(places)
}

#[test]
fn each_index_has_its_place(rt: HostRuntime) -> Result<(), Fail> {
    let places = numbered(rt.alloc(), 2).map_err(|_: NoMemory| "memory")?;
    assert_eq!(rt; places.group(), 2);
    assert_eq!(rt; *places.at(3), 0);
    assert_eq!(rt; *places.at(7), 1);
    assert_eq!(rt; *places.at(63), 15);
    Ok(())
}

#[test]
fn what_is_written_stands_at_its_index_alone(rt: HostRuntime) -> Result<(), Fail> {
    let mut places = numbered(rt.alloc(), 0).map_err(|_: NoMemory| "memory")?;
    *places.at_mut(57) = 100;
    assert_eq!(rt; *places.at(53), 13);
    assert_eq!(rt; *places.at(57), 100);
    assert_eq!(rt; *places.at(61), 15);
    Ok(())
}

ghost use Rattle.std.specs.Prelude.{◌≡◌, ◌≤◌};
ghost use Rattle.rk_model.specs.declared.state.Armer.TheVariants.{Thread as OfThread};

use crate::Wheel;
use rk_model::{Armed, Armer, NoMemory, ThreadIx};
use std::test::Fail;

/// The owner of a thread's timer, by the index of the thread.
fn thread(at: u8) -> Armer
    requires low { 1 ≤ at }
    requires high { at ≤ 64 }
    ensures { result ≡ OfThread at }
{
    Armer::Thread(ThreadIx::new(at))
}

#[test]
fn timers_are_taken_in_order_of_arming(rt: HostRuntime) -> Result<(), Fail> {
    let mut wheel = Wheel::new(rt.alloc()).map_err(|_: NoMemory| "memory")?;
    wheel.arm(thread(3), 20);
    wheel.arm(Armer::Period(3), 10);
    wheel.arm(thread(1), 10);
    assert_eq!(rt; wheel.take_due(9), None);
    assert_eq!(rt;
        wheel.take_due(10),
        Some(Armed {
            who: Armer::Period(3),
            due: 10
        })
    );
    assert_eq!(rt;
        wheel.take_due(10),
        Some(Armed {
            who: thread(1),
            due: 10
        })
    );
    assert_eq!(rt; wheel.take_due(10), None);
    assert_eq!(rt;
        wheel.take_due(20),
        Some(Armed {
            who: thread(3),
            due: 20
        })
    );
    Ok(())
}

#[test]
fn cancelled_timers_are_gone(rt: HostRuntime) -> Result<(), Fail> {
    let mut wheel = Wheel::new(rt.alloc()).map_err(|_: NoMemory| "memory")?;
    wheel.arm(thread(3), 20);
    wheel.arm(Armer::Period(3), 10);
    wheel.arm(thread(64), 20);
    assert_eq!(rt; wheel.due(thread(3)), Some(20));
    assert_eq!(rt; wheel.due(Armer::Period(3)), Some(10));
    assert_eq!(rt; wheel.due(Armer::Period(64)), None);
    wheel.cancel(thread(3));
    assert_eq!(rt; wheel.due(thread(3)), None);
    assert_eq!(rt; wheel.due(Armer::Period(3)), Some(10));
    assert_eq!(rt;
        wheel.take_due(20),
        Some(Armed {
            who: thread(64),
            due: 20
        })
    );
    Ok(())
}

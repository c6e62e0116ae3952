use crate::Line;
use rk_model::{NoMemory, Prio, ThreadIx};
use std::test::Fail;

#[test]
fn lines_go_by_priority_and_place(rt: HostRuntime) -> Result<(), Fail> {
    let mut line = Line::new(rt.alloc()).map_err(|_: NoMemory| "memory")?;
    assert_eq!(rt; line.nth_urgent(0), None);
    line.append(ThreadIx::new(1), Prio::new(10));
    line.append(ThreadIx::new(2), Prio::new(20));
    line.prepend(ThreadIx::new(3), Prio::new(20));
    line.append(ThreadIx::new(64), Prio::new(10));
    for (n, thread) in [(0, 1), (1, 64), (2, 3), (3, 2)] {
        assert_eq!(rt; line.nth_urgent(n), Some(ThreadIx::new(thread)));
    }
    assert_eq!(rt; line.nth_urgent(4), None);
    assert_eq!(rt; line.nth_urgent(255), None);
    Ok(())
}

#[test]
fn changed_threads_keep_their_places(rt: HostRuntime) -> Result<(), Fail> {
    let mut line = Line::new(rt.alloc()).map_err(|_: NoMemory| "memory")?;
    line.append(ThreadIx::new(5), Prio::new(30));
    line.append(ThreadIx::new(6), Prio::new(255));
    line.append(ThreadIx::new(7), Prio::new(30));
    line.change(ThreadIx::new(6), Prio::new(30));
    assert_eq!(rt; line.nth_urgent(1), Some(ThreadIx::new(6)));
    line.change(ThreadIx::new(7), Prio::new(1));
    assert_eq!(rt; line.nth_urgent(0), Some(ThreadIx::new(7)));
    assert_eq!(rt; line.nth_urgent(2), Some(ThreadIx::new(6)));
    Ok(())
}

#[test]
fn removed_threads_are_gone(rt: HostRuntime) -> Result<(), Fail> {
    let mut line = Line::new(rt.alloc()).map_err(|_: NoMemory| "memory")?;
    line.append(ThreadIx::new(5), Prio::new(30));
    line.append(ThreadIx::new(6), Prio::new(20));
    assert_eq!(rt; line.contains(ThreadIx::new(6)), true);
    assert_eq!(rt; line.contains(ThreadIx::new(7)), false);
    line.remove(ThreadIx::new(6));
    assert_eq!(rt; line.contains(ThreadIx::new(6)), false);
    assert_eq!(rt; line.nth_urgent(0), Some(ThreadIx::new(5)));
    assert_eq!(rt; line.nth_urgent(1), None);
    Ok(())
}

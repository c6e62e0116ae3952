//! The queues of what threads wait for, in the lent groups.

ghost use Rattle.rk_model.specs.Directives.Waits.{object_of_wait};
ghost use Rattle.rk_groups.specs.Groups.{Leaves};

use crate::barriers::leave_barrier;
use crate::group::GroupPart;
use crate::semaphores::leave_semaphore;
use rk_model::{ThreadIx, Wait};

/// Takes a thread out of the queue of what it waits for, where it stands there.
pub fn leave(groups: &mut [GroupPart], thread: ThreadIx, wait: &Option<Wait>)
    ensures { Leaves groups.old thread (object_of_wait wait.now) groups.new }
{
    match *wait {
        Some(Wait::AtBarrier(index)) => leave_barrier(groups, index, thread),
        Some(Wait::ForSemaphore(index, _)) => leave_semaphore(groups, index, thread),
        _ => {}
    }
}

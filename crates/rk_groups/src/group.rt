//! The part of a group of objects.

ghost use Rattle.std.specs.Prelude.{◌≡◌};
ghost use Rattle.rk_model.specs.declared.status.Status.TheVariants.{InvalidId};
ghost use Rattle.rk_model.specs.Directives.Waits.{bare};

use rk_model::{Reply, Status, Wakes};
use rk_partition::PartitionStore;
use rk_period::PeriodStore;
use rk_sem::SemStore;
use rk_signal::BarrierStore;

/// The part of a group of objects. An object of index `i` belongs to the group `(i - 1) % 4`.
#[derive(Debug, Drop)]
pub struct GroupPart {
    /// The present tick.
    pub present: u32,
    /// The semaphores of the group.
    pub semaphores: SemStore,
    /// The barriers of the group.
    pub barriers: BarrierStore,
    /// The partitions of the group.
    pub partitions: PartitionStore,
    /// The periods of the group.
    pub periods: PeriodStore,
    /// The waits that the last call of a manager ended.
    pub wakes: Wakes,
}

/// The answer where the group of an object isn't lent, and so none lives.
pub(crate) fn unknown() -> Reply
    ensures { result ≡ bare InvalidId }
{
    Reply {
        status: Status::InvalidId,
        out: 0,
    }
}

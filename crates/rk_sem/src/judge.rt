ghost use Rattle.std.specs.Prelude.{◌≡◌};
ghost use Rattle.rk_model.specs.Directives.Semaphores.{judged};

use rk_model::limits::LEAST_URGENT;
use rk_model::{Caller, SemSpec, Status};

/// `Successful` where a task can create such a semaphore. Otherwise why it can't: the first condition
/// that holds decides.
pub(crate) fn judge(spec: SemSpec, by: Caller) -> Status
    ensures { result ≡ judged spec by }
{
    if spec.protocol.raises() && !spec.kind.is_binary() {
        return Status::NotDefined;
    }
    if !spec.kind.is_counting() && spec.count > 1 {
        return Status::InvalidNumber;
    }
    if spec.protocol.is_mrsp() && spec.count == 0 {
        return Status::InvalidNumber;
    }
    if spec.protocol.has_ceiling() && (spec.ceiling == 0 || spec.ceiling > LEAST_URGENT as u32) {
        return Status::InvalidPriority;
    }
    if spec.protocol.is_ceiling() && spec.count == 0 && (by.prio.level() as u32) < spec.ceiling {
        return Status::InvalidPriority;
    }
    Status::Successful
}

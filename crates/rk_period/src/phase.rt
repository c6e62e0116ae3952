//! How a period stands, and how it stands after a call or an end.
ghost use Rattle.std.specs.Prelude.{◌≡◌, ◌≤◌, false, Some};
ghost use Rattle.rk_model.specs.declared.limits.TheConstants.{MOST_TICKS};
ghost use Rattle.rk_model.specs.Directives.Periods.{postponed_of, end_of, is_awaited, started, with_postponed, begun, fired};
ghost use Rattle.rk_period.specs.Periods.{status_of_query, status_of_begin, passing_of};

use crate::period::Passed;
use rk_model::{Job, Phase, Status};

/// Whether the creator waits for the end.
pub(crate) fn is_awaited(phase: Phase) -> bool
    ensures { result ≡ is_awaited phase }
{
    match phase {
        Phase::Inactive => false,
        Phase::Active { .. } => false,
        Phase::Awaited { .. } => true,
        Phase::Expired { .. } => false,
    }
}

/// What a call with length 0 answers.
pub(crate) fn status_of_query(phase: Phase) -> Status
    ensures { result ≡ status_of_query phase }
{
    match phase {
        Phase::Inactive => Status::NotDefined,
        Phase::Active { .. } => Status::Successful,
        Phase::Awaited { .. } => Status::Successful,
        Phase::Expired { .. } => Status::Timeout,
    }
}

/// What a call with a length answers.
pub(crate) fn status_of_begin(phase: Phase) -> Status
    requires { is_awaited phase ≡ false }
    ensures { result ≡ status_of_begin phase }
{
    match phase {
        Phase::Inactive => Status::Successful,
        Phase::Active { .. } => Status::Waits,
        Phase::Awaited { .. } => unreachable!(),
        Phase::Expired { .. } => Status::Timeout,
    }
}

/// How a period stands after a call with a length, in ticks: a job starts at the tick `now`, or the
/// creator waits for the end.
pub(crate) fn begun(phase: Phase, length: u32, now: u64, used: u64) -> Phase
    requires goes_on { is_awaited phase ≡ false }
    requires few { now ≤ MOST_TICKS }
    ensures { result ≡ begun length now used phase }
{
    match phase {
        Phase::Inactive => Phase::Active {
            length,
            next_end: now + length as u64,
            job: started(now, used),
        },
        Phase::Active { next_end, .. } => Phase::Awaited { length, next_end },
        Phase::Awaited { .. } => unreachable!(),
        Phase::Expired {
            next_end,
            postponed,
            ..
        } => {
            let left = postponed.saturating_sub(1);
            with_postponed(length, next_end, started(now, used), left)
        }
    }
}

/// How a period stands whose job has started, and of which so many are postponed.
fn with_postponed(length: u32, next_end: u64, job: Job, postponed: u64) -> Phase
    ensures { result ≡ with_postponed length next_end job postponed }
{
    if postponed == 0 {
        Phase::Active {
            length,
            next_end,
            job,
        }
    } else {
        Phase::Expired {
            length,
            next_end,
            job,
            postponed,
        }
    }
}

/// A job that starts at the tick `now`, when its creator has computed `used` ticks.
fn started(now: u64, used: u64) -> Job
    ensures { result ≡ started now used }
{
    Job { start: now, used }
}

/// How a period stands once its end, which is the tick `now`, has passed.
pub(crate) fn fired(phase: Phase, now: u64, used: u64) -> Phase
    requires due { end_of phase ≡ Some now }
    requires few { now ≤ MOST_TICKS }
    requires postponed { postponed_of phase ≤ now }
    ensures { result ≡ fired now used phase }
{
    match phase {
        Phase::Inactive => unreachable!(),
        Phase::Active {
            length,
            next_end,
            job,
        } => with_postponed(length, next_end + length as u64, job, 1),
        Phase::Awaited { length, next_end } => {
            with_postponed(length, next_end + length as u64, started(now, used), 0)
        }
        Phase::Expired {
            length,
            next_end,
            job,
            postponed,
        } => with_postponed(length, next_end + length as u64, job, postponed + 1),
    }
}

/// What the end of a period, which is the tick `now`, comes to.
pub(crate) fn passing_of(phase: Phase, now: u64) -> Passed
    requires due { end_of phase ≡ Some now }
    requires few { now ≤ MOST_TICKS }
    ensures { result ≡ passing_of phase }
{
    match phase {
        Phase::Inactive => unreachable!(),
        Phase::Active { length, .. } => Passed::Postponed(now + length as u64),
        Phase::Awaited { length, .. } => Passed::Woke(now + length as u64),
        Phase::Expired { length, .. } => Passed::Postponed(now + length as u64),
    }
}

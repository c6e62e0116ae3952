//! The statistics of a period's ended jobs.
ghost use Rattle.std.specs.Prelude.{◌≡◌, ◌+◌, ◌≤◌};
ghost use Rattle.rk_model.specs.declared.limits.TheConstants.{MOST_TICKS};
ghost use Rattle.rk_model.specs.State.{no_stats};
ghost use Rattle.rk_model.specs.Directives.Periods.{least_with, with_job, ended_job};

use rk_model::{EndedJob, Job, Stats};

/// The statistics where no job has ended.
pub(crate) fn no_stats() -> Stats
    ensures { result ≡ no_stats }
{
    Stats {
        count: 0,
        missed: 0,
        cpu_least: 0,
        cpu_greatest: 0,
        cpu_total: 0,
        wall_least: 0,
        wall_greatest: 0,
        wall_total: 0,
    }
}

/// A job that ends at the tick `now`, when its creator has computed `used` ticks.
pub(crate) fn ended_job(now: u64, used: u64, late: bool, job: Job) -> EndedJob
    requires start { job.start ≤ now }
    requires before { job.used ≤ used }
    ensures { result ≡ ended_job now used late job }
{
    EndedJob {
        late,
        computed: used - job.used,
        elapsed: now - job.start,
    }
}

/// The statistics with one more ended job.
pub(crate) fn with_job(stats: Stats, job: EndedJob) -> Stats
    requires count { stats.count ≤ MOST_TICKS }
    requires missed { stats.missed ≤ MOST_TICKS }
    requires computed { stats.cpu_total + job.computed ≤ MOST_TICKS }
    requires elapsed { stats.wall_total + job.elapsed ≤ MOST_TICKS }
    ensures { result ≡ with_job job stats }
{
    let is_first = stats.count == 0;
    Stats {
        count: stats.count + 1,
        missed: if job.late {
            stats.missed + 1
        } else {
            stats.missed
        },
        cpu_least: least(is_first, stats.cpu_least, job.computed),
        cpu_greatest: stats.cpu_greatest.max(job.computed),
        cpu_total: stats.cpu_total + job.computed,
        wall_least: least(is_first, stats.wall_least, job.elapsed),
        wall_greatest: stats.wall_greatest.max(job.elapsed),
        wall_total: stats.wall_total + job.elapsed,
    }
}

/// The least ticks of the jobs before and of one more, which may be the first.
fn least(is_first: bool, before: u64, ticks: u64) -> u64
    ensures { result ≡ least_with is_first before ticks }
{
    if is_first { ticks } else { before.min(ticks) }
}

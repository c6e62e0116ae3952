ghost use Rattle.std.specs.Prelude.{◌≡◌, ◌≤◌, ◌<◌, true, false, Some, IfSome};
ghost use Rattle.rk_model.specs.State.{no_period};
ghost use Rattle.rk_model.specs.Directives.Periods.{running_job, postponed_of, end_of};
ghost use Rattle.rk_period.specs.Periods.{Fits, HasBegun, waits_for};
ghost use Rattle.rk_places.specs.Stores.{IsOfGroup, stored_at};

use crate::phase::is_awaited;
use crate::stats::no_stats;
use crate::{Passed, PeriodStore};
use rk_model::limits::MOST_TICKS;
use rk_model::{Job, NoMemory, Phase, Reply, Stats, Status, ThreadIx};
use std::test::Fail;

/// How many jobs are postponed.
fn postponed_of(phase: Phase) -> u64
    ensures { result ≡ postponed_of phase }
{
    match phase {
        Phase::Inactive => 0,
        Phase::Active { .. } => 0,
        Phase::Awaited { .. } => 0,
        Phase::Expired { postponed, .. } => postponed,
    }
}

/// The job that runs, if one does.
fn running_job(phase: Phase) -> Option<Job>
    ensures { result ≡ running_job phase }
{
    match phase {
        Phase::Inactive => None,
        Phase::Active { job, .. } => Some(job),
        Phase::Awaited { .. } => None,
        Phase::Expired { job, .. } => Some(job),
    }
}

/// Whether the job that runs, if one does, began after the others ended, and in the past.
fn has_begun(running: Option<Job>, stats: Stats, now: u64, used: u64) -> bool
    ensures { result ≡ true → IfSome running (HasBegun stats now used) }
{
    match running {
        None => true,
        Some(job) => {
            stats.wall_total <= job.start
                && job.start <= now
                && stats.cpu_total <= job.used
                && job.used <= used
        }
    }
}

/// Whether the counts and totals of a period fit the present tick and the computed ticks.
fn fits(store: &PeriodStore, index: u16, now: u64, used: u64) -> bool
    requires place { IsOfGroup store.now.group index }
    requires live { (stored_at no_period store.now index).live ≡ true }
    ensures { result ≡ true → Fits now used (stored_at no_period store.now index) }
{
    let phase = store.phase(index);
    let stats = store.stats(index);
    if now > MOST_TICKS as u64 || used > MOST_TICKS as u64 || postponed_of(phase) > now {
        return false;
    }
    if stats.count > now || stats.missed > now {
        return false;
    }
    if stats.wall_total > now || stats.cpu_total > used {
        return false;
    }
    has_begun(running_job(phase), stats, now, used)
}

/// Makes a period, where none lives.
fn create(store: &mut PeriodStore, index: u16, by: ThreadIx)
    requires { IsOfGroup store.old.group index }
    ensures { store.new.group ≡ store.old.group }
{
    if !store.is_live(index) {
        store.create(index, by);
    }
}

/// Lets a thread begin the next job, where it doesn't wait for the period.
fn period(
    store: &mut PeriodStore,
    index: u16,
    by: ThreadIx,
    length: u32,
    now: u64,
    used: u64,
) -> Option<Status>
    requires { IsOfGroup store.old.group index }
    ensures { store.new.group ≡ store.old.group }
{
    if !store.is_live(index) || !fits(store, index, now, used) {
        return None;
    }
    if store.creator(index) == by && is_awaited(store.phase(index)) {
        return None;
    }
    let reply = store.period(index, by, length, now, used);
    if reply.out == 0 {
        Some(reply.status)
    } else {
        None
    }
}

/// Lets the end of a period pass, where it is the present tick.
fn passed(store: &mut PeriodStore, index: u16, now: u64, used: u64) -> Option<Passed>
    requires { IsOfGroup store.old.group index }
    ensures { store.new.group ≡ store.old.group }
{
    if !store.is_live(index) || !fits(store, index, now, used) {
        return None;
    }
    if is_due(store.phase(index), now) {
        Some(store.passed(index, now, used))
    } else {
        None
    }
}

/// Whether the next end is now.
fn is_due(phase: Phase, now: u64) -> bool
    ensures { result ≡ true → end_of phase ≡ Some now }
{
    match phase {
        Phase::Inactive => false,
        Phase::Active { next_end, .. } => next_end == now,
        Phase::Awaited { next_end, .. } => next_end == now,
        Phase::Expired { next_end, .. } => next_end == now,
    }
}

/// Lets a thread cancel a period, where it doesn't wait for it.
fn cancel(store: &mut PeriodStore, index: u16, by: ThreadIx) -> Option<Reply>
    requires { IsOfGroup store.old.group index }
    ensures { store.new.group ≡ store.old.group }
{
    if !store.is_live(index) {
        return None;
    }
    if store.creator(index) == by && is_awaited(store.phase(index)) {
        return None;
    }
    Some(store.cancel(index, by))
}

/// Ends the life of a period, where one lives.
fn remove(store: &mut PeriodStore, index: u16) -> Option<Reply>
    requires { IsOfGroup store.old.group index }
    ensures { store.new.group ≡ store.old.group }
{
    if store.is_live(index) {
        Some(store.remove(index))
    } else {
        None
    }
}

/// The creator of a period, where one lives.
fn creator(store: &PeriodStore, index: u16) -> Option<ThreadIx>
    requires { IsOfGroup store.now.group index }
{
    if store.is_live(index) {
        Some(store.creator(index))
    } else {
        None
    }
}

/// The statistics of a period, where one lives.
fn stats(store: &PeriodStore, index: u16) -> Option<Stats>
    requires { IsOfGroup store.now.group index }
{
    if store.is_live(index) {
        Some(store.stats(index))
    } else {
        None
    }
}

/// How a period stands, where one lives.
fn phase(store: &PeriodStore, index: u16) -> Option<Phase>
    requires { IsOfGroup store.now.group index }
{
    if store.is_live(index) {
        Some(store.phase(index))
    } else {
        None
    }
}

/// Lets thread 5 begin the next job of period 6, where it doesn't wait for it.
fn call(store: &mut PeriodStore, length: u32, now: u64, used: u64) -> Option<Status>
    requires { IsOfGroup store.old.group 6 }
    ensures { store.new.group ≡ store.old.group }
{
    period(store, 6, ThreadIx::new(5), length, now, used)
}

/// The answer with a status.
fn reply(status: Status) -> Option<Reply> {
    Some(Reply { status, out: 0 })
}

#[test]
fn a_period_is_that_of_its_creator(rt: HostRuntime) -> Result<(), Fail> {
    let mut store = PeriodStore::new(rt.alloc(), 3).map_err(|_: NoMemory| "memory")?;
    let by = ThreadIx::new(9);
    let other = ThreadIx::new(2);
    assert_eq!(rt; store.group(), 3);
    assert_eq!(rt; store.is_live(64), false);
    create(&mut store, 64, by);
    assert_eq!(rt; store.is_live(64), true);
    assert_eq!(rt; store.is_live(60), false);
    assert_eq!(rt; creator(&store, 64), Some(by));
    assert_eq!(rt;
        period(&mut store, 64, other, 10, 100, 40),
        Some(Status::NotOwnerOfResource)
    );
    assert_eq!(rt;
        cancel(&mut store, 64, other),
        reply(Status::NotOwnerOfResource)
    );
    assert_eq!(rt;
        period(&mut store, 64, by, 0, 100, 40),
        Some(Status::NotDefined)
    );
    assert_eq!(rt;
        period(&mut store, 64, by, 10, 100, 40),
        Some(Status::Successful)
    );
    assert_eq!(rt; cancel(&mut store, 64, by), reply(Status::Successful));
    assert_eq!(rt; cancel(&mut store, 64, by), reply(Status::Successful));
    assert_eq!(rt; phase(&store, 64), Some(Phase::Inactive));
    assert_eq!(rt; stats(&store, 64), Some(no_stats()));
    assert_eq!(rt; remove(&mut store, 64), reply(Status::Successful));
    assert_eq!(rt; store.is_live(64), false);
    Ok(())
}

#[test]
fn an_active_period_waits_for_its_end(rt: HostRuntime) -> Result<(), Fail> {
    let mut store = PeriodStore::new(rt.alloc(), 0).map_err(|_: NoMemory| "memory")?;
    let by = ThreadIx::new(9);
    create(&mut store, 1, by);
    // The first job starts at 100, and ends at 107 with 3 computed ticks; the end is 110.
    assert_eq!(rt;
        period(&mut store, 1, by, 10, 100, 40),
        Some(Status::Successful)
    );
    assert_eq!(rt;
        period(&mut store, 1, by, 0, 103, 41),
        Some(Status::Successful)
    );
    assert_eq!(rt; period(&mut store, 1, by, 20, 107, 43), Some(Status::Waits));
    assert_eq!(rt; remove(&mut store, 1), reply(Status::ResourceInUse));
    // The length that it was called with last counts from the end on.
    assert_eq!(rt; passed(&mut store, 1, 110, 43), Some(Passed::Woke(130)));
    assert_eq!(rt;
        stats(&store, 1),
        Some(Stats {
            count: 1,
            missed: 0,
            cpu_least: 3,
            cpu_greatest: 3,
            cpu_total: 3,
            wall_least: 7,
            wall_greatest: 7,
            wall_total: 7,
        })
    );
    // The job that is cancelled isn't counted.
    assert_eq!(rt; cancel(&mut store, 1, by), reply(Status::Successful));
    assert_eq!(rt; phase(&store, 1), Some(Phase::Inactive));
    assert_eq!(rt; stats(&store, 1).map(|stats: Stats| stats.count), Some(1));
    Ok(())
}

#[test]
fn an_expired_period_catches_up(rt: HostRuntime) -> Result<(), Fail> {
    let mut store = PeriodStore::new(rt.alloc(), 1).map_err(|_: NoMemory| "memory")?;
    create(&mut store, 6, ThreadIx::new(5));
    assert_eq!(rt; call(&mut store, 20, 110, 43), Some(Status::Successful));
    // Two ends pass while its job runs.
    assert_eq!(rt;
        passed(&mut store, 6, 130, 60),
        Some(Passed::Postponed(150))
    );
    assert_eq!(rt;
        passed(&mut store, 6, 150, 75),
        Some(Passed::Postponed(170))
    );
    assert_eq!(rt; call(&mut store, 0, 151, 76), Some(Status::Timeout));
    assert_eq!(rt;
        phase(&store, 6),
        Some(Phase::Expired {
            length: 20,
            next_end: 170,
            job: Job {
                start: 110,
                used: 43
            },
            postponed: 2,
        })
    );
    // The first job ends late, after 45 ticks of which it computed 37.
    assert_eq!(rt; call(&mut store, 30, 155, 80), Some(Status::Timeout));
    // The second ends late, after 1 tick, which it computed. Then none is postponed.
    assert_eq!(rt; call(&mut store, 30, 156, 81), Some(Status::Timeout));
    assert_eq!(rt; call(&mut store, 0, 160, 85), Some(Status::Successful));
    // The third ends in time, after 4 ticks, which it computed. The end is still 170.
    assert_eq!(rt; call(&mut store, 30, 160, 85), Some(Status::Waits));
    assert_eq!(rt; passed(&mut store, 6, 170, 85), Some(Passed::Woke(200)));
    assert_eq!(rt;
        stats(&store, 6),
        Some(Stats {
            count: 3,
            missed: 2,
            cpu_least: 1,
            cpu_greatest: 37,
            cpu_total: 42,
            wall_least: 1,
            wall_greatest: 45,
            wall_total: 50,
        })
    );
    Ok(())
}

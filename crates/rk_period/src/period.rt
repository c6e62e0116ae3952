ghost use Rattle.std.specs.Prelude.{◌≡◌, false, Some};
ghost use Rattle.rk_model.specs.Directives.Periods.{end_of, new_period, passed, stats_ended};
ghost use Rattle.rk_model.specs.Directives.Waits.{bare};
ghost use Rattle.rk_period.specs.Periods.{Fits, waits_for, called, reply_to_call, passing_of, cancelled_by, reply_to_cancel};
ghost use Rattle.rk_period.specs.PeriodSlots.{place_with};

use crate::{phase, stats};
use rk_model::{Phase, Reply, Stats, Status, ThreadIx};

/// What the end of a period came to, with the tick of the next end.
#[derive(Clone, Copy, Debug, PartialEq, Eq)]
pub enum Passed {
    /// Its creator waited for it, and its next job has started.
    Woke(u64),
    /// Its job still runs, and one more is postponed.
    Postponed(u64),
}

/// A period that lives.
#[derive(Clone, Copy, Debug, PartialEq, Eq)]
pub(crate) struct Period {
    /// The thread that created it.
    pub(crate) creator: ThreadIx,
    /// How it stands.
    pub(crate) phase: Phase,
    /// What is counted of its ended jobs.
    pub(crate) stats: Stats,
}

impl Period {
    /// An inactive period of a creator.
    pub(crate) fn new(creator: ThreadIx) -> Period
        ensures { place_with result ≡ new_period creator }
    {
        Period {
            creator,
            phase: Phase::Inactive,
            stats: stats::no_stats(),
        }
    }

    /// Begins the next job, or waits for its start; with length 0 says how the period stands.
    pub(crate) fn call(&mut self, by: ThreadIx, length: u32, now: u64, used: u64) -> Reply
        requires goes_on { waits_for (place_with self.old) by ≡ false }
        requires fits { by ≡ self.old.creator → Fits now used (place_with self.old) }
        ensures period { place_with self.new ≡ called by length now used (place_with self.old) }
        ensures reply { result ≡ reply_to_call by length (place_with self.old) }
    {
        if self.creator != by {
            reply(Status::NotOwnerOfResource)
        } else if length == 0 {
            reply(phase::status_of_query(self.phase))
        } else {
            let status = phase::status_of_begin(self.phase);
            self.stats = self.stats_ended(now, used);
            self.phase = phase::begun(self.phase, length, now, used);
            reply(status)
        }
    }

    /// The statistics once the running job, if there is one, has ended. It is late where the period
    /// is expired.
    fn stats_ended(&self, now: u64, used: u64) -> Stats
        requires { Fits now used (place_with self.now) }
        ensures { result ≡ stats_ended now used self.now.phase self.now.stats }
    {
        match self.phase {
            Phase::Inactive => self.stats,
            Phase::Active { job, .. } => {
                stats::with_job(self.stats, stats::ended_job(now, used, false, job))
            }
            Phase::Awaited { .. } => self.stats,
            Phase::Expired { job, .. } => {
                stats::with_job(self.stats, stats::ended_job(now, used, true, job))
            }
        }
    }

    /// Lets its end pass.
    pub(crate) fn pass(&mut self, now: u64, used: u64) -> Passed
        requires due { end_of self.old.phase ≡ Some now }
        requires fits { Fits now used (place_with self.old) }
        ensures period { place_with self.new ≡ passed now used (place_with self.old) }
        ensures passing { result ≡ passing_of self.old.phase }
    {
        let passing = phase::passing_of(self.phase, now);
        self.phase = phase::fired(self.phase, now, used);
        passing
    }

    /// Makes it inactive.
    pub(crate) fn cancel(&mut self, by: ThreadIx) -> Reply
        requires { waits_for (place_with self.old) by ≡ false }
        ensures period { place_with self.new ≡ cancelled_by by (place_with self.old) }
        ensures reply { result ≡ reply_to_cancel by (place_with self.old) }
    {
        if self.creator == by {
            self.phase = Phase::Inactive;
            reply(Status::Successful)
        } else {
            reply(Status::NotOwnerOfResource)
        }
    }
}

/// The answer with a status, and without an out number.
pub(crate) fn reply(status: Status) -> Reply
    ensures { result ≡ bare status }
{
    Reply { status, out: 0 }
}

/// A job of a period, as it started.
#[derive(Clone, Copy, Debug, PartialEq, Eq)]
pub struct Job {
    /// The tick at which it started.
    pub start: u64,
    /// The ticks that the period's creator had computed by then.
    pub used: u64,
}

/// How a period stands.
#[derive(Clone, Copy, Debug, PartialEq, Eq)]
pub enum Phase {
    /// It has no end, and no job.
    Inactive,
    /// Its job runs, and none is postponed.
    Active {
        /// The ticks from the next end to the one after it, from 1.
        length: u32,
        /// The tick of the next end.
        next_end: u64,
        /// The job that runs.
        job: Job,
    },
    /// It is active. Its job has ended, and its creator waits for the end, at which the next job
    /// starts.
    Awaited {
        /// The ticks from the next end to the one after it, from 1.
        length: u32,
        /// The tick of the next end.
        next_end: u64,
    },
    /// Its job runs, and others are postponed, whose ends have passed.
    Expired {
        /// The ticks from the next end to the one after it, from 1.
        length: u32,
        /// The tick of the next end.
        next_end: u64,
        /// The job that runs.
        job: Job,
        /// How many jobs are postponed.
        postponed: u64,
    },
}

/// A job of a period that has ended.
#[derive(Clone, Copy, Debug, PartialEq, Eq)]
pub struct EndedJob {
    /// Whether the period was expired when it ended.
    pub late: bool,
    /// The ticks that it computed.
    pub computed: u64,
    /// The ticks that elapsed from its start to its end.
    pub elapsed: u64,
}

/// The statistics of a period's ended jobs (`rtems_rate_monotonic_period_statistics`). All are 0
/// where no job has ended.
#[derive(Clone, Copy, Debug, PartialEq, Eq)]
pub struct Stats {
    /// How many jobs have ended.
    pub count: u64,
    /// How many of them ended while the period was expired.
    pub missed: u64,
    /// The least ticks that one of them computed.
    pub cpu_least: u64,
    /// The most ticks that one of them computed.
    pub cpu_greatest: u64,
    /// The ticks that they computed in all.
    pub cpu_total: u64,
    /// The least ticks that elapsed from the start to the end of one of them.
    pub wall_least: u64,
    /// The most ticks that elapsed from the start to the end of one of them.
    pub wall_greatest: u64,
    /// The ticks that elapsed in all of them.
    pub wall_total: u64,
}

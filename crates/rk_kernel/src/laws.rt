//! Laws over the definitions: the contract of each function is a law, and calling it does nothing.
//!
//! Each speaks of the state after any legal history of a scenario, but for the last ones: they speak of
//! the planned history, of histories of one processor, and of every state.

ghost use Rattle.rk_kernel.specs.SchedulingLaws.{LinesHoldTheirOwn, ProcessorsHaveTheRunners, RunnersAreTheMostUrgent, NoneRunsTwice, PreemptedThreadsAreHelped, NamesAndObjectsAgree, NothingIsLeftOfDeletedTasks, NothingIsLeftOfDeletedSemaphores, NothingIsLeftOfDeletedBarriers, NothingIsLeftOfDeletedPartitions, NothingIsLeftOfDeletedPeriods, StatisticsAreThoseOfTheHistory, WaitsAndQueuesAgree, OwnersLiveAndNoneWaitsForItsOwn, EveryChainOfWaitsEnds, NoneActsAtWork, RefusalsChangeTheCallerAlone, LowestGoesOn, DeadIndicesBringNothing, LiveThreadsHavePriorities, PeriodsAndCreatorsAgree, HistoriesOfOneProcessorAreEqual, HistoriesOfOneProcessorArePlanned};
ghost use Rattle.rk_kernel.specs.Cut.{SuspendNeedsItsClusterAlone};

/// The ready queue of each cluster holds exactly the eligible threads of that home, each once.
pub fn lines_hold_their_own()
    ensures { LinesHoldTheirOwn }
{}

/// The processors of each cluster have exactly its scheduled threads, each on one processor.
pub fn processors_have_the_runners()
    ensures { ProcessorsHaveTheRunners }
{}

/// The scheduled threads of each cluster are exactly the threads of its ready queue with fewer more
/// urgent ones than there are processors.
pub fn runners_are_the_most_urgent()
    ensures { RunnersAreTheMostUrgent }
{}

/// No thread runs on two processors.
pub fn none_runs_twice()
    ensures { NoneRunsTwice }
{}

/// A thread that could run and isn't scheduled runs all the same where a scheduled thread spins for it:
/// on the least processor whose thread does, and on no other.
pub fn preempted_threads_are_helped()
    ensures { PreemptedThreadsAreHelped }
{}

/// In each class each index from 1 to 64 is that of one live object, once, or is free, once; and an
/// object has a name exactly where it lives.
pub fn names_and_objects_agree()
    ensures { NamesAndObjectsAgree }
{}

/// Where no task has a name, there is no thread: nothing is left there of one that was deleted.
pub fn nothing_is_left_of_deleted_tasks()
    ensures { NothingIsLeftOfDeletedTasks }
{}

/// Where no semaphore has a name, there is none: nothing is left there of one that was deleted, neither
/// an owner nor a queue.
pub fn nothing_is_left_of_deleted_semaphores()
    ensures { NothingIsLeftOfDeletedSemaphores }
{}

/// Where no barrier has a name, there is none: nothing is left there of one that was deleted.
pub fn nothing_is_left_of_deleted_barriers()
    ensures { NothingIsLeftOfDeletedBarriers }
{}

/// Where no partition has a name, there is none: nothing is left there of one that was deleted.
pub fn nothing_is_left_of_deleted_partitions()
    ensures { NothingIsLeftOfDeletedPartitions }
{}

/// Where no period has a name, there is none: nothing is left there of one that was deleted.
pub fn nothing_is_left_of_deleted_periods()
    ensures { NothingIsLeftOfDeletedPeriods }
{}

/// A thread stands in the queue of an object, once, exactly where it waits for that object, and in no
/// other queue; it has at most one timer, only where it waits and not for a period, and exactly one where
/// it waits for a time.
pub fn waits_and_queues_agree()
    ensures { WaitsAndQueuesAgree }
{}

/// Who owns a semaphore lives, and doesn't wait for it.
pub fn owners_live_and_none_waits_for_its_own()
    ensures { OwnersLiveAndNoneWaitsForItsOwn }
{}

/// Every chain of threads, each of which waits for a semaphore that the next one owns, ends: it has at
/// most 64 threads, and comes back to none.
pub fn every_chain_of_waits_ends()
    ensures { EveryChainOfWaitsEnds }
{}

/// An index where no task lives brings nothing: its thread contributes to no priority, and has none in
/// any cluster. Dormant and ended tasks live.
pub fn dead_indices_bring_nothing()
    ensures { DeadIndicesBringNothing }
{}

/// A thread that lives has a priority in its home, which is at most its base priority.
pub fn live_threads_have_priorities()
    ensures { LiveThreadsHavePriorities }
{}

/// A live period's creator lives, and waits for the period exactly where that is awaited; no other thread
/// waits for it; and its one timer is that of its next end, in its creator's home.
pub fn periods_and_creators_agree()
    ensures { PeriodsAndCreatorsAgree }
{}

/// The statistics that a period has are those of its history: of the jobs that ended since it was
/// created, each with the ticks that passed and that its creator computed from its start to its end.
pub fn statistics_are_those_of_the_history()
    ensures { StatisticsAreThoseOfTheHistory }
{}

/// A directive never acts for a line of work or a goto: a thread that has a directive and doesn't
/// return from one is at another line, or behind the last.
pub fn none_acts_at_work()
    ensures { NoneActsAtWork }
{}

/// A directive that refuses changes the caller alone: its thread has gone on to its next line, with 0
/// in the directive's result variable, where it has one, and nothing else of the state changed.
pub fn refusals_change_the_caller_alone()
    ensures { RefusalsChangeTheCallerAlone }
{}

/// The planned history ends with End, or has as many entries as it was cut to.
pub fn lowest_goes_on()
    ensures { LowestGoesOn }
{}

/// Where a scenario has one processor, two of its legal histories of the same length are equal.
pub fn histories_of_one_processor_are_equal()
    ensures { HistoriesOfOneProcessorAreEqual }
{}

/// Where a scenario has one processor, a legal history that ends with End or has as many entries as it
/// may have is the planned one.
pub fn histories_of_one_processor_are_planned()
    ensures { HistoriesOfOneProcessorArePlanned }
{}

/// `task.suspend` of a task of the caller's home needs that cluster's part alone: on it the answer is
/// the same, and the state is the cut of that to which it comes on the whole.
pub fn suspend_needs_its_cluster_alone()
    ensures { SuspendNeedsItsClusterAlone }
{}

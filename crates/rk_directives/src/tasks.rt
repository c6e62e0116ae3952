//! The directives of the task manager.

ghost use Rattle.std.specs.Prelude.{◌≡◌, ◌||◌, IfSome, IsSome, [], true};
ghost use Rattle.rk_model.specs.declared.ids.Class.TheVariants.{Task};
ghost use Rattle.rk_model.specs.declared.scenario.Scenario.{Scenario as ScenarioView};
ghost use Rattle.rk_model.specs.declared.state.Armer.TheVariants.{Thread as OfThread};
ghost use Rattle.rk_model.specs.declared.state.Life.TheVariants.{Started};
ghost use Rattle.rk_model.specs.State.{Plain};
ghost use Rattle.rk_model.specs.Directives.Objects.{has_begun, object_of};
ghost use Rattle.rk_model.specs.Directives.Semaphores.{has_obtained};
ghost use Rattle.rk_model.specs.Directives.Tasks.{has_created, task_of, task_named, dormant_in, prio_refusal, task_create, task_ident, is_dormant, task_start, task_suspend, task_resume, task_set_priority, task_get_priority, without_task, task_delete, task_exit, task_wake_after};
ghost use Rattle.rk_model.specs.Directives.Outcomes.{arrived};
ghost use Rattle.rk_model.specs.Limits.{AreRunnable};
ghost use Rattle.rk_model.specs.Scheduling.Timers.{times_armed};
ghost use Rattle.rk_directives.specs.Does.{BecomesEvery, Does, DoesBoth, DoesEvery, HaveEachPriority, HavePriorities, DoesWide, Tells, with_table};
ghost use Rattle.rk_groups.specs.GroupObjects.{periods_of, semaphores_of};
ghost use Rattle.rk_parts.specs.Joined.{lent, thread_lent, timers_lent};
ghost use Rattle.rk_parts.specs.Lent.{number_in, Puts};
ghost use Rattle.rk_parts.specs.NamesAgree.{IsNamed};

use crate::objects::{create, ident, remove};
use crate::outcomes::{done, value_in};
use crate::waits::start_limited;
use rk_groups::group::GroupPart;
use rk_groups::periods::has_created;
use rk_groups::queues::leave;
use rk_groups::semaphores::has_obtained;
use rk_model::limits::LEAST_URGENT;
use rk_model::{
    Answer, Armer, Class, Id, Life, Name, Prio, Scenario, Status, Target, Thread, ThreadIx, Wait,
};
use rk_parts::arrival::arrive;
use rk_parts::lent::{make, put, remove as remove_thread, thread_of};
use rk_parts::parts::ClusterPart;
use rk_parts::standing::{prio_at_home, prio_of};
use rk_parts::table::Table;
use rk_parts::timers::cancel;

/// Whether a life has begun.
fn has_begun(life: Life) -> bool
    ensures { result ≡ has_begun life }
{
    !matches!(life, Life::Absent)
}

/// The live task whose id these bits are; `None` exactly where they are the id of no live task.
fn live_task(clusters: &[ClusterPart], bits: u32) -> Option<ThreadIx>
    ensures found { result ≡ object_of (lent clusters.now) Task bits }
    ensures lives { IfSome result (λ u. has_begun (thread_lent clusters.now u).life ≡ true) }
{
    let index = Id { bits }.index_in(Class::Task)?;
    let task = ThreadIx::new(index as u8);
    if has_begun(thread_of(clusters, task).life) {
        Some(task)
    } else {
        None
    }
}

/// The task that a caller asks for by these bits; `None` exactly where they are no task's id.
fn task_of(clusters: &[ClusterPart], caller: ThreadIx, bits: u32) -> Option<ThreadIx>
    requires { has_begun (thread_lent clusters.now caller).life ≡ true }
    ensures found { result ≡ task_of (lent clusters.now) caller bits }
    ensures lives { IfSome result (λ u. has_begun (thread_lent clusters.now u).life ≡ true) }
{
    if bits == 0 {
        Some(caller)
    } else {
        live_task(clusters, bits)
    }
}

/// The task that a caller asks for; `None` exactly where the id is unknown.
pub(crate) fn task_named(clusters: &[ClusterPart], caller: ThreadIx, id: Target) -> Option<ThreadIx>
    requires { has_begun (thread_lent clusters.now caller).life ≡ true }
    ensures found { result ≡ task_named (lent clusters.now) caller id }
    ensures lives { IfSome result (λ u. has_begun (thread_lent clusters.now u).life ≡ true) }
{
    match id {
        Target::Own => Some(caller),
        Target::Given(bits) => task_of(clusters, caller, bits),
        Target::Var(var) => task_of(clusters, caller, value_in(thread_of(clusters, caller), var)),
    }
}

/// A task that was created with this home and this base priority.
fn dormant_in(home: u8, base: Prio) -> Thread
    ensures { result ≡ dormant_in home base }
{
    Thread {
        life: Life::Dormant,
        home,
        base,
        ..Thread::absent()
    }
}

/// Why a task can't be created with a priority, if it can't.
fn prio_refusal(prio: u32) -> Option<Status>
    ensures { result ≡ prio_refusal prio }
{
    if prio == 0 || u32::from(LEAST_URGENT) < prio {
        Some(Status::InvalidPriority)
    } else {
        None
    }
}

/// `task.create` (`rtems_task_create`): makes a dormant task of the caller's home, and answers its
/// id. It refuses with `INVALID_NAME` where the name is 0, with `INVALID_PRIORITY` where the
/// priority isn't from 1 to 255, and with `TOO_MANY` where 64 tasks live.
pub(crate) fn task_create(
    clusters: &mut [ClusterPart],
    names: &mut Table,
    caller: ThreadIx,
    name: Name,
    prio: u32,
) -> Answer
    requires lives { has_begun (thread_lent clusters.old caller).life ≡ true }
    requires lent { IsSome (number_in clusters.old (thread_lent clusters.old caller).home) }
    requires named { IsNamed names.old.tasks (λ t. has_begun (thread_lent clusters.old t).life) }
    ensures { (s : ScenarioView) → DoesWide s (λ k. task_create k caller name.bits prio) result clusters.old names.old clusters.new names.new }
{
    let home = thread_of(clusters, caller).home;
    match create(names, Class::Task, name, prio_refusal(prio)) {
        Err(status) => Answer::Refused(status),
        Ok(index) => {
            let task = dormant_in(home, Prio::new(prio as u8));
            make(clusters, ThreadIx::new(index as u8), task);
            done(Id::of(Class::Task, index).bits)
        }
    }
}

/// `task.ident` (`rtems_task_ident`): answers the id of the task of least index that has the name. It
/// refuses with `INVALID_NAME` where there is no such task.
pub(crate) fn task_ident(names: &Table, name: Name) -> Answer
    ensures { (k : Plain) → Tells (task_ident (with_table k names.now) name.bits) result (with_table k names.now) }
{
    ident(names, Class::Task, name)
}

/// Whether a task is created and not started yet.
fn is_dormant(life: Life) -> bool
    ensures { result ≡ is_dormant life }
{
    matches!(life, Life::Dormant)
}

/// Starts a task at the first line of a body.
fn with_started(scenario: &Scenario, clusters: &mut [ClusterPart], task: ThreadIx, body: u8)
    requires lives { has_begun (thread_lent clusters.old task).life ≡ true }
    requires bodies { AreRunnable scenario.now.bodies }
    ensures { Puts clusters.old task (arrived scenario.now (record (thread_lent clusters.old task) { life = Started; body = body }) 1) clusters.new }
{
    let thread = thread_of(clusters, task);
    let begun = Thread {
        life: Life::Started,
        body,
        ..thread
    };
    let arrived = arrive(scenario, begun, 1);
    put(clusters, task, arrived);
}

/// `task.start` (`rtems_task_start`): starts a dormant task at the first line of a body. It refuses
/// with `INVALID_ID` where the task is unknown, and with `INCORRECT_STATE` where it isn't dormant.
pub(crate) fn task_start(
    scenario: &Scenario,
    clusters: &mut [ClusterPart],
    caller: ThreadIx,
    id: Target,
    body: u8,
) -> Answer
    requires lives { has_begun (thread_lent clusters.old caller).life ≡ true }
    requires bodies { AreRunnable scenario.now.bodies }
    ensures { Does scenario.now (λ k. task_start k caller id body) result clusters.old clusters.new }
{
    match task_named(clusters, caller, id) {
        None => Answer::Refused(Status::InvalidId),
        Some(task) => {
            if is_dormant(thread_of(clusters, task).life) {
                with_started(scenario, clusters, task, body);
                done(0)
            } else {
                Answer::Refused(Status::IncorrectState)
            }
        }
    }
}

/// Says of a task whether it is suspended from now on.
fn with_suspended(clusters: &mut [ClusterPart], task: ThreadIx, suspended: bool)
    requires { has_begun (thread_lent clusters.old task).life ≡ true }
    ensures { Puts clusters.old task (record (thread_lent clusters.old task) { suspended = suspended }) clusters.new }
{
    let thread = thread_of(clusters, task);
    let changed = Thread {
        suspended,
        ..thread
    };
    put(clusters, task, changed);
}

/// `task.suspend` (`rtems_task_suspend`): suspends a task, whose wait and timer go on. It refuses
/// with `INVALID_ID` where the task is unknown, and with `ALREADY_SUSPENDED` where it is suspended.
pub(crate) fn task_suspend(clusters: &mut [ClusterPart], caller: ThreadIx, id: Target) -> Answer
    requires { has_begun (thread_lent clusters.old caller).life ≡ true }
    ensures { (s : ScenarioView) → Does s (λ k. task_suspend k caller id) result clusters.old clusters.new }
{
    match task_named(clusters, caller, id) {
        None => Answer::Refused(Status::InvalidId),
        Some(task) => {
            if thread_of(clusters, task).suspended {
                Answer::Refused(Status::AlreadySuspended)
            } else {
                with_suspended(clusters, task, true);
                done(0)
            }
        }
    }
}

/// `task.resume` (`rtems_task_resume`): lets a suspended task go on. It refuses with `INVALID_ID`
/// where the task is unknown, and with `INCORRECT_STATE` where it isn't suspended.
pub(crate) fn task_resume(clusters: &mut [ClusterPart], caller: ThreadIx, id: Target) -> Answer
    requires { has_begun (thread_lent clusters.old caller).life ≡ true }
    ensures { (s : ScenarioView) → Does s (λ k. task_resume k caller id) result clusters.old clusters.new }
{
    match task_named(clusters, caller, id) {
        None => Answer::Refused(Status::InvalidId),
        Some(task) => {
            if thread_of(clusters, task).suspended {
                with_suspended(clusters, task, false);
                done(0)
            } else {
                Answer::Refused(Status::IncorrectState)
            }
        }
    }
}

/// Sets the base priority of a task.
fn with_base(clusters: &mut [ClusterPart], task: ThreadIx, base: Prio)
    requires { has_begun (thread_lent clusters.old task).life ≡ true }
    ensures { Puts clusters.old task (record (thread_lent clusters.old task) { base = base }) clusters.new }
{
    let thread = thread_of(clusters, task);
    put(clusters, task, Thread { base, ..thread });
}

/// `task.set_priority` (`rtems_task_set_priority`): sets the base priority of a task, which then
/// goes to the end of its ready queue, and answers the priority that it had in its home; with 0 it
/// only answers that. It refuses with `INVALID_ID` where the task is unknown, and with
/// `INVALID_PRIORITY` where the priority is above 255.
pub(crate) fn task_set_priority(
    clusters: &mut [ClusterPart],
    groups: &[GroupPart],
    caller: ThreadIx,
    id: Target,
    prio: u32,
) -> Answer
    requires lives { has_begun (thread_lent clusters.old caller).life ≡ true }
    requires prios { HavePriorities clusters.old groups.now }
    ensures { (s : ScenarioView) → DoesBoth s (λ k. task_set_priority k caller id prio) result clusters.old groups.now clusters.new groups.now }
{
    match task_named(clusters, caller, id) {
        None => Answer::Refused(Status::InvalidId),
        Some(task) => {
            if u32::from(LEAST_URGENT) < prio {
                return Answer::Refused(Status::InvalidPriority);
            }
            // Reading the index tells its range.
            let _index = task.at();
            let before = u32::from(prio_at_home(clusters, task).level());
            if prio == 0 {
                return done(before);
            }
            with_base(clusters, task, Prio::new(prio as u8));
            Answer::Done(Status::Successful, before, Some(task))
        }
    }
}

/// `task.get_priority` (`rtems_task_get_priority`): answers the priority of a task in a cluster. It
/// refuses with `INVALID_ID` where the task is unknown, and with `NOT_DEFINED` where it has no
/// priority there.
pub(crate) fn task_get_priority(
    clusters: &[ClusterPart],
    groups: &[GroupPart],
    caller: ThreadIx,
    id: Target,
    cluster: u8,
) -> Answer
    requires lives { has_begun (thread_lent clusters.now caller).life ≡ true }
    requires each { HaveEachPriority clusters.now groups.now }
    ensures { (s : ScenarioView) → DoesBoth s (λ k. task_get_priority k caller id cluster) result clusters.now groups.now clusters.now groups.now }
{
    match task_named(clusters, caller, id) {
        None => Answer::Refused(Status::InvalidId),
        Some(task) => {
            // Reading the index tells its range.
            let _index = task.at();
            match prio_of(clusters, task, cluster) {
                None => Answer::Refused(Status::NotDefined),
                Some(prio) => done(u32::from(prio.level())),
            }
        }
    }
}

/// Ends the life of a task: it leaves its queue, its timer is cancelled, its index is free, and
/// nothing is left of it.
fn without_task(
    clusters: &mut [ClusterPart],
    groups: &mut [GroupPart],
    names: &mut Table,
    task: ThreadIx,
)
    requires lives { has_begun (thread_lent clusters.old task).life ≡ true }
    requires named { IsNamed names.old.tasks (λ t. has_begun (thread_lent clusters.old t).life) }
    ensures { (s : ScenarioView) → BecomesEvery s (λ k. without_task k task) clusters.old groups.old names.old clusters.new groups.new names.new }
{
    let wait = thread_of(clusters, task).wait;
    leave(groups, task, &wait);
    cancel(clusters, task, Armer::Thread(task));
    remove_thread(clusters, task);
    remove(names, Class::Task, u16::from(task.at()));
}

/// Whether a task owns a semaphore, or created a period that lives.
fn is_in_use(groups: &[GroupPart], task: ThreadIx) -> bool
    ensures { result ≡ (has_obtained (semaphores_of groups.now) task || has_created (periods_of groups.now) task) }
{
    has_obtained(groups, task) || has_created(groups, task)
}

/// `task.delete` (`rtems_task_delete`): ends the life of a task; a caller that deletes itself doesn't
/// go on. It refuses with `INVALID_ID` where the task is unknown, and with `RESOURCE_IN_USE` where it owns
/// a semaphore or created a period that lives.
pub(crate) fn task_delete(
    clusters: &mut [ClusterPart],
    groups: &mut [GroupPart],
    names: &mut Table,
    caller: ThreadIx,
    id: Target,
) -> Answer
    requires lives { has_begun (thread_lent clusters.old caller).life ≡ true }
    requires named { IsNamed names.old.tasks (λ t. has_begun (thread_lent clusters.old t).life) }
    ensures { (s : ScenarioView) → DoesEvery s (λ k. task_delete k caller id) result clusters.old groups.old names.old clusters.new groups.new names.new }
{
    match task_named(clusters, caller, id) {
        None => Answer::Refused(Status::InvalidId),
        Some(task) => {
            if is_in_use(groups, task) {
                return Answer::Refused(Status::ResourceInUse);
            }
            without_task(clusters, groups, names, task);
            if task == caller {
                Answer::Gone(Status::Successful)
            } else {
                done(0)
            }
        }
    }
}

/// `task.exit` (`rtems_task_exit`): ends the task.
pub(crate) fn task_exit(clusters: &mut [ClusterPart], caller: ThreadIx) -> Answer
    requires { has_begun (thread_lent clusters.old caller).life ≡ true }
    ensures { (s : ScenarioView) → Does s (λ k. task_exit k caller) result clusters.old clusters.new }
{
    let thread = thread_of(clusters, caller);
    let ended = Thread {
        life: Life::Ended,
        ..thread
    };
    put(clusters, caller, ended);
    Answer::Gone(Status::TaskExitted)
}

/// `task.wake_after` (`rtems_task_wake_after`): the caller sleeps for so many ticks, and yields
/// with 0.
pub(crate) fn task_wake_after(clusters: &mut [ClusterPart], caller: ThreadIx, ticks: u32) -> Answer
    requires lives { has_begun (thread_lent clusters.old caller).life ≡ true }
    requires unarmed { times_armed (OfThread caller) (timers_lent clusters.old caller) ≡ 0 }
    ensures { (s : ScenarioView) → Does s (λ k. task_wake_after k caller ticks) result clusters.old clusters.new }
{
    if ticks == 0 {
        Answer::Done(Status::Successful, 0, Some(caller))
    } else {
        start_limited(clusters, caller, Wait::ForTime, ticks);
        Answer::Waiting
    }
}

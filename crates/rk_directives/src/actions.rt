//! The directives: what the line of a thread does, or its return from a directive that waited.
//!
//! A narrow directive is done on the cluster parts that are lent, however many, and touches them
//! through the accessors of `rk_parts` alone. A wide one needs all of them and the table.

ghost use Rattle.std.specs.Prelude.{◌≡◌, ℕ, IfSome, None, Some, true, false};
ghost use Rattle.rk_model.specs.declared.entry.Reply.{Reply as ReplyView};
ghost use Rattle.rk_model.specs.declared.scenario.Scenario.{Scenario as ScenarioView};
ghost use Rattle.rk_model.specs.declared.state.Armer.TheVariants.{Thread as OfThread};
ghost use Rattle.rk_model.specs.Directives.Objects.{has_begun};
ghost use Rattle.rk_model.specs.Limits.{AreRunnable, IsNear};
ghost use Rattle.rk_model.specs.Scheduling.Timers.{times_armed};
ghost use Rattle.rk_model.specs.State.{thread_at};
ghost use Rattle.rk_model.specs.Steps.{action, back, directive, is_wide};
ghost use Rattle.rk_model.specs.Directives.Barriers.{barrier_delete};
ghost use Rattle.rk_model.specs.Directives.Partitions.{partition_delete};
ghost use Rattle.rk_model.specs.Directives.Periods.{period_delete};
ghost use Rattle.rk_model.specs.Directives.Semaphores.{semaphore_create, semaphore_delete};
ghost use Rattle.rk_model.specs.Directives.Tasks.{task_delete};
ghost use Rattle.rk_model.specs.Directives.Waits.{Object};
ghost use Rattle.rk_directives.specs.Does.{HaveEachPriority, HavePriorities, Does, DoesAll, DoesBoth, IsQueueOf, MayCall, OwnersLive, lent_both};
ghost use Rattle.rk_directives.specs.Calls.{IsActing, is_on_object, makes_object, period_called, queue_named};
ghost use Rattle.rk_parts.specs.Holdings.{AreHeld, holdings};
ghost use Rattle.rk_groups.specs.GroupObjects.{semaphores_of};
ghost use Rattle.rk_parts.specs.Joined.{plain_of, thread_lent, timers_lent};
ghost use Rattle.rk_parts.specs.Whole.{AreWhole};

use crate::barriers::{
    barrier_create, barrier_delete, barrier_ident, barrier_release, barrier_wait,
};
use crate::events::{event_receive, event_send};
use crate::partitions::{
    partition_create, partition_delete, partition_get, partition_ident, partition_return,
};
use crate::periods::{period_cancel, period_create, period_delete, period_ident, period_period};
use crate::semaphores::{
    semaphore_create, semaphore_delete, semaphore_flush, semaphore_ident, semaphore_obtain,
    semaphore_release, semaphore_set_priority,
};
use crate::tasks::{
    task_create, task_delete, task_exit, task_get_priority, task_ident, task_resume,
    task_set_priority, task_start, task_suspend, task_wake_after,
};
use rk_groups::group::GroupPart;
use rk_model::{Answer, Name, Op, Reply, Scenario, SemSpec, Target, Thread, ThreadIx};
use rk_parts::lent::{renew, thread_of};
use rk_parts::parts::{AllParts, ClusterPart};

/// Lets the caller return from a directive that waited.
fn back(clusters: &mut [ClusterPart], caller: ThreadIx, reply: Reply) -> Answer
    requires { has_begun (thread_lent clusters.old caller).life ≡ true }
    ensures { (s : ScenarioView) → Does s (λ k. back k caller reply) result clusters.old clusters.new }
{
    let thread = thread_of(clusters, caller);
    let returned = Thread {
        finished: None,
        ..thread
    };
    renew(clusters, caller, returned);
    Answer::Done(reply.status, reply.out, None)
}

/// Does the narrow directive of a line on a semaphore, a barrier, a partition or a period.
fn perform_on_object(
    clusters: &mut [ClusterPart],
    groups: &mut [GroupPart],
    caller: ThreadIx,
    op: Op,
) -> Answer
    requires object { is_on_object op ≡ true }
    requires lives { has_begun (thread_lent clusters.old caller).life ≡ true }
    requires unarmed { times_armed (OfThread caller) (timers_lent clusters.old caller) ≡ 0 }
    requires free { (thread_lent clusters.old caller).wait ≡ None }
    requires held { AreHeld (holdings clusters.old) (semaphores_of groups.old) }
    requires queue { (object : Object) → queue_named (lent_both clusters.old groups.old) caller op ≡ Some object → IsQueueOf clusters.old groups.old object }
    requires period { (i : ℕ) → period_called (lent_both clusters.old groups.old) caller op ≡ Some i → MayCall clusters.old groups.old i caller }
    requires near { IsNear op }
    requires owned { OwnersLive clusters.old groups.old }
    requires prios { HavePriorities clusters.old groups.old }
    ensures { (s : ScenarioView) → DoesBoth s (λ k. directive k caller (Some op)) result clusters.old groups.old clusters.new groups.new }
{
    match op {
        Op::SemObtain(id, wish) => semaphore_obtain(clusters, groups, caller, id, wish),
        Op::SemRelease(id) => semaphore_release(clusters, groups, caller, id),
        Op::SemFlush(id) => semaphore_flush(clusters, groups, caller, id),
        Op::SemSetPriority(id, cluster, prio, _) => {
            semaphore_set_priority(clusters, groups, caller, id, cluster, prio)
        }
        Op::BarrierWait(id, ticks) => barrier_wait(clusters, groups, caller, id, ticks),
        Op::BarrierRelease(id, _) => barrier_release(clusters, groups, caller, id),
        Op::PartGet(id, _) => partition_get(clusters, groups, caller, id),
        Op::PartReturn(id, address) => partition_return(clusters, groups, caller, id, address),
        Op::PeriodPeriod(id, length) => period_period(clusters, groups, caller, id, length),
        Op::PeriodCancel(id) => period_cancel(clusters, groups, caller, id),
        _ => unreachable!(),
    }
}

/// Does the narrow directive of a line: on a task or its events here, or on an object of a group.
fn perform_narrow(
    scenario: &Scenario,
    clusters: &mut [ClusterPart],
    groups: &mut [GroupPart],
    caller: ThreadIx,
    op: Op,
) -> Answer
    requires narrow { is_wide op ≡ false }
    requires lives { has_begun (thread_lent clusters.old caller).life ≡ true }
    requires unarmed { times_armed (OfThread caller) (timers_lent clusters.old caller) ≡ 0 }
    requires free { (thread_lent clusters.old caller).wait ≡ None }
    requires held { AreHeld (holdings clusters.old) (semaphores_of groups.old) }
    requires queue { (object : Object) → queue_named (lent_both clusters.old groups.old) caller op ≡ Some object → IsQueueOf clusters.old groups.old object }
    requires period { (i : ℕ) → period_called (lent_both clusters.old groups.old) caller op ≡ Some i → MayCall clusters.old groups.old i caller }
    requires bodies { AreRunnable scenario.now.bodies }
    requires near { IsNear op }
    requires owned { OwnersLive clusters.old groups.old }
    requires each { HaveEachPriority clusters.old groups.old }
    ensures { DoesBoth scenario.now (λ k. directive k caller (Some op)) result clusters.old groups.old clusters.new groups.new }
{
    match op {
        Op::TaskStart(id, body) => task_start(scenario, clusters, caller, id, body),
        Op::TaskSuspend(id) => task_suspend(clusters, caller, id),
        Op::TaskResume(id) => task_resume(clusters, caller, id),
        Op::TaskSetPriority(id, prio, _) => task_set_priority(clusters, groups, caller, id, prio),
        Op::TaskGetPriority(id, cluster, _) => {
            task_get_priority(clusters, groups, caller, id, cluster)
        }
        Op::TaskWakeAfter(ticks) => task_wake_after(clusters, caller, ticks),
        Op::EventSend(id, set) => event_send(clusters, groups, caller, id, set),
        Op::EventReceive(set, all, wish, _) => event_receive(clusters, caller, set, all, wish),
        Op::Work(_) => task_exit(clusters, caller),
        Op::Goto(_) => task_exit(clusters, caller),
        _ => perform_on_object(clusters, groups, caller, op),
    }
}

/// Deletes a task, on all parts.
fn perform_task_delete(all: &mut AllParts, caller: ThreadIx, id: Target) -> Answer
    requires acts { IsActing (plain_of all.old) caller }
    requires whole { AreWhole all.old }
    ensures { DoesAll (task_delete (plain_of all.old) caller id) result all.old all.new }
{
    task_delete(
        &mut all.clusters,
        &mut all.groups,
        &mut all.table.names,
        caller,
        id,
    )
}

/// Makes a semaphore, on all parts.
fn perform_semaphore_create(
    all: &mut AllParts,
    caller: ThreadIx,
    name: Name,
    spec: SemSpec,
) -> Answer
    requires acts { IsActing (plain_of all.old) caller }
    requires whole { AreWhole all.old }
    requires prios { HavePriorities all.old.clusters all.old.groups }
    ensures { DoesAll (semaphore_create (plain_of all.old) caller name.bits spec) result all.old all.new }
{
    semaphore_create(
        &mut all.clusters,
        &mut all.groups,
        &mut all.table.names,
        caller,
        name,
        spec,
    )
}

/// Deletes a semaphore, on all parts.
fn perform_semaphore_delete(all: &mut AllParts, caller: ThreadIx, id: Target) -> Answer
    requires acts { IsActing (plain_of all.old) caller }
    requires whole { AreWhole all.old }
    ensures { DoesAll (semaphore_delete (plain_of all.old) caller id) result all.old all.new }
{
    semaphore_delete(
        &mut all.clusters,
        &mut all.groups,
        &mut all.table.names,
        caller,
        id,
    )
}

/// Deletes a barrier, on all parts.
fn perform_barrier_delete(all: &mut AllParts, caller: ThreadIx, id: Target) -> Answer
    requires acts { IsActing (plain_of all.old) caller }
    requires whole { AreWhole all.old }
    ensures { DoesAll (barrier_delete (plain_of all.old) caller id) result all.old all.new }
{
    barrier_delete(
        &mut all.clusters,
        &mut all.groups,
        &mut all.table.names,
        caller,
        id,
    )
}

/// Deletes a partition, on all parts.
fn perform_partition_delete(all: &mut AllParts, caller: ThreadIx, id: Target) -> Answer
    requires acts { IsActing (plain_of all.old) caller }
    requires whole { AreWhole all.old }
    ensures { DoesAll (partition_delete (plain_of all.old) caller id) result all.old all.new }
{
    partition_delete(
        &all.clusters,
        &mut all.groups,
        &mut all.table.names,
        caller,
        id,
    )
}

/// Deletes a period, on all parts.
fn perform_period_delete(all: &mut AllParts, caller: ThreadIx, id: Target) -> Answer
    requires acts { IsActing (plain_of all.old) caller }
    requires whole { AreWhole all.old }
    ensures { DoesAll (period_delete (plain_of all.old) caller id) result all.old all.new }
{
    period_delete(
        &mut all.clusters,
        &mut all.groups,
        &mut all.table.names,
        caller,
        id,
    )
}

/// Does the directive of a line that makes no object: finds or deletes one here, or does a narrow
/// directive.
fn perform_known(all: &mut AllParts, caller: ThreadIx, op: Op) -> Answer
    requires known { makes_object op ≡ false }
    requires acts { IsActing (plain_of all.old) caller }
    requires whole { AreWhole all.old }
    requires near { IsNear op }
    requires each { HaveEachPriority all.old.clusters all.old.groups }
    ensures { DoesAll (directive (plain_of all.old) caller (Some op)) result all.old all.new }
{
    match op {
        Op::TaskIdent(name, _) => task_ident(&all.table.names, name),
        Op::TaskDelete(id) => perform_task_delete(all, caller, id),
        Op::SemIdent(name, _) => semaphore_ident(&all.table.names, name),
        Op::SemDelete(id) => perform_semaphore_delete(all, caller, id),
        Op::BarrierIdent(name, _) => barrier_ident(&all.table.names, name),
        Op::BarrierDelete(id) => perform_barrier_delete(all, caller, id),
        Op::PartIdent(name, _) => partition_ident(&all.table.names, name),
        Op::PartDelete(id) => perform_partition_delete(all, caller, id),
        Op::PeriodIdent(name, _) => period_ident(&all.table.names, name),
        Op::PeriodDelete(id) => perform_period_delete(all, caller, id),
        _ => perform_narrow(
            &all.scenario,
            &mut all.clusters,
            &mut all.groups,
            caller,
            op,
        ),
    }
}

/// Does the directive of a line.
fn perform(all: &mut AllParts, caller: ThreadIx, op: Op) -> Answer
    requires acts { IsActing (plain_of all.old) caller }
    requires whole { AreWhole all.old }
    requires near { IsNear op }
    requires each { HaveEachPriority all.old.clusters all.old.groups }
    ensures { DoesAll (directive (plain_of all.old) caller (Some op)) result all.old all.new }
{
    match op {
        Op::TaskCreate(name, prio, _) => {
            task_create(&mut all.clusters, &mut all.table.names, caller, name, prio)
        }
        Op::SemCreate(name, count, kind, order, protocol, ceiling, _) => {
            let spec = SemSpec {
                count,
                kind,
                order,
                protocol,
                ceiling,
            };
            perform_semaphore_create(all, caller, name, spec)
        }
        Op::BarrierCreate(name, automatic, most, _) => barrier_create(
            &mut all.groups,
            &mut all.table.names,
            name,
            automatic,
            most,
        ),
        Op::PartCreate(name, start, length, size, _) => partition_create(
            &mut all.groups,
            &mut all.table.names,
            name,
            start,
            length,
            size,
        ),
        Op::PeriodCreate(name, _) => {
            period_create(&mut all.groups, &mut all.table.names, caller, name)
        }
        _ => perform_known(all, caller, op),
    }
}

/// Does the directive of a line, or behind the last line the exit.
fn perform_at(all: &mut AllParts, caller: ThreadIx, op: Option<Op>) -> Answer
    requires acts { IsActing (plain_of all.old) caller }
    requires whole { AreWhole all.old }
    requires near { IfSome op IsNear }
    requires each { HaveEachPriority all.old.clusters all.old.groups }
    ensures { DoesAll (directive (plain_of all.old) caller op) result all.old all.new }
{
    match op {
        Some(op) => perform(all, caller, op),
        None => task_exit(&mut all.clusters, caller),
    }
}

/// Does the next action of a thread, which is handed on as it is, but for what follows its answer.
#[tactic(auto, unfolding(rk_model::specs::Steps::action))]
pub fn action(all: &mut AllParts, caller: ThreadIx, thread: &Thread) -> Answer
    requires acts { IsActing (plain_of all.old) caller }
    requires whole { AreWhole all.old }
    requires thread { thread.now ≡ thread_at (plain_of all.old) caller }
    requires each { HaveEachPriority all.old.clusters all.old.groups }
    ensures { DoesAll (action (plain_of all.old) caller) result all.old all.new }
{
    match thread.finished {
        Some(reply) => back(&mut all.clusters, caller, reply),
        None => {
            let op = all.scenario.op_at(thread.body, thread.line);
            perform_at(all, caller, op)
        }
    }
}

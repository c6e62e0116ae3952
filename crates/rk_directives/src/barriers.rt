//! The directives of the barrier manager.

ghost use Rattle.std.specs.Prelude.{◌≡◌, ◌≤◌, [], ℕ, IfSome, None, Some, length, true};
ghost use Rattle.rk_model.specs.declared.limits.TheConstants.{MOST_OBJECTS};
ghost use Rattle.rk_model.specs.declared.ids.Class.TheVariants.{Barrier};
ghost use Rattle.rk_model.specs.declared.scenario.Scenario.{Scenario as ScenarioView};
ghost use Rattle.rk_model.specs.declared.state.Armer.TheVariants.{Thread as OfThread};
ghost use Rattle.rk_model.specs.declared.status.Status.TheVariants.{Successful};
ghost use Rattle.rk_model.specs.Directives.Barriers.{most_refusal, barrier_create, barrier_ident, end_at, barrier_wait, barrier_release, without_barrier, barrier_delete};
ghost use Rattle.rk_model.specs.Directives.Objects.{has_begun, object_named};
ghost use Rattle.rk_model.specs.Directives.Waits.{OfBarrier};
ghost use Rattle.rk_model.specs.Scheduling.Timers.{times_armed};
ghost use Rattle.rk_model.specs.State.{Plain};
ghost use Rattle.rk_directives.specs.Does.{BecomesBoth, BecomesEvery, DoesBoth, DoesEvery, DoesGroups, IsQueueOf, Tells, lent_both, with_table};
ghost use Rattle.rk_groups.specs.Groups.{is_lent};
ghost use Rattle.rk_groups.specs.GroupObjects.{barrier_lent};
ghost use Rattle.rk_parts.specs.Joined.{thread_lent, timers_lent};
ghost use Rattle.rk_parts.specs.NamesAgree.{IsNamed};

use crate::objects::{bits_of, create, ident, remove};
use crate::outcomes::done;
use crate::waits::{caller_of, start_limited, wake_all};
use rk_groups::barriers::{self, is_live, wakes_of};
use rk_groups::group::GroupPart;
use rk_model::{Answer, Class, Id, Name, Status, Target, ThreadIx, Wait};
use rk_parts::parts::ClusterPart;
use rk_parts::table::Table;

/// The index of the barrier that a caller asks for; `None` exactly where the id is unknown.
fn barrier_named(
    clusters: &[ClusterPart],
    groups: &[GroupPart],
    caller: ThreadIx,
    id: Target,
) -> Option<u16>
    ensures found { result ≡ object_named (lent_both clusters.now groups.now) caller Barrier id }
    ensures low { IfSome result (λ i. 1 ≤ i) }
    ensures high { IfSome result (λ i. i ≤ MOST_OBJECTS) }
    ensures lives { IfSome result (λ i. (barrier_lent groups.now i).live ≡ true) }
{
    let bits = bits_of(clusters, caller, id);
    let index = Id { bits }.index_in(Class::Barrier)?;
    if is_live(groups, index) {
        Some(index)
    } else {
        None
    }
}

/// Why a barrier can't be created, if it can't.
fn most_refusal(automatic: bool, most: u32) -> Option<Status>
    ensures { result ≡ most_refusal automatic most }
{
    if automatic && most == 0 {
        Some(Status::InvalidNumber)
    } else {
        None
    }
}

/// `barrier.create` (`rtems_barrier_create`): makes a barrier at which no task waits, and answers its
/// id. It refuses with `INVALID_NAME` where the name is 0, with `INVALID_NUMBER` where it is automatic
/// and the maximum is 0, and with `TOO_MANY` where 64 barriers live.
pub(crate) fn barrier_create(
    groups: &mut [GroupPart],
    names: &mut Table,
    name: Name,
    automatic: bool,
    most: u32,
) -> Answer
    requires named { IsNamed names.old.barriers (λ i. (barrier_lent groups.old i).live) }
    requires lent { (i : ℕ) → 1 ≤ i → i ≤ MOST_OBJECTS → is_lent groups.old i ≡ true }
    ensures { (s : ScenarioView) → DoesGroups s (λ k. barrier_create k name.bits automatic most) result groups.old names.old groups.new names.new }
{
    match create(names, Class::Barrier, name, most_refusal(automatic, most)) {
        Err(status) => Answer::Refused(status),
        Ok(index) => {
            barriers::create(groups, index, automatic, most);
            done(Id::of(Class::Barrier, index).bits)
        }
    }
}

/// `barrier.ident` (`rtems_barrier_ident`): answers the id of the barrier of least index that has the
/// name. It refuses with `INVALID_NAME` where there is no such barrier.
pub(crate) fn barrier_ident(names: &Table, name: Name) -> Answer
    ensures { (k : Plain) → Tells (barrier_ident (with_table k names.now) name.bits) result (with_table k names.now) }
{
    ident(names, Class::Barrier, name)
}

/// `barrier.wait` (`rtems_barrier_wait`): waits at a barrier with a limit; the task that makes up the
/// maximum of an automatic one ends all waits there, and doesn't wait. It refuses with `INVALID_ID`
/// where the barrier is unknown.
pub(crate) fn barrier_wait(
    clusters: &mut [ClusterPart],
    groups: &mut [GroupPart],
    caller: ThreadIx,
    id: Target,
    ticks: u32,
) -> Answer
    requires lives { has_begun (thread_lent clusters.old caller).life ≡ true }
    requires free { (thread_lent clusters.old caller).wait ≡ None }
    requires unarmed { times_armed (OfThread caller) (timers_lent clusters.old caller) ≡ 0 }
    requires queue { (i : ℕ) → object_named (lent_both clusters.old groups.old) caller Barrier id ≡ Some i → IsQueueOf clusters.old groups.old (OfBarrier i) }
    ensures { (s : ScenarioView) → DoesBoth s (λ k. barrier_wait k caller id ticks) result clusters.old groups.old clusters.new groups.new }
{
    match barrier_named(clusters, groups, caller, id) {
        None => Answer::Refused(Status::InvalidId),
        Some(index) => {
            let by = caller_of(clusters, caller);
            if let Status::Waits = barriers::wait(groups, index, by).status {
                start_limited(clusters, caller, Wait::AtBarrier(index), ticks);
                Answer::Waiting
            } else {
                wake_all(clusters, wakes_of(groups, index));
                done(0)
            }
        }
    }
}

/// Ends all waits at a barrier, and gives their number.
fn release_all(clusters: &mut [ClusterPart], groups: &mut [GroupPart], index: u16) -> u32
    requires low { 1 ≤ index }
    requires high { index ≤ MOST_OBJECTS }
    requires live { (barrier_lent groups.old index).live ≡ true }
    requires queue { IsQueueOf clusters.old groups.old (OfBarrier index) }
    ensures state { (s : ScenarioView) → BecomesBoth s (λ k. end_at k index Successful) clusters.old groups.old clusters.new groups.new }
    ensures count { result ≡ length (barrier_lent groups.old index).arrivals }
{
    let reply = barriers::release(groups, index);
    wake_all(clusters, wakes_of(groups, index));
    reply.out
}

/// `barrier.release` (`rtems_barrier_release`): ends all waits at a barrier, and answers their number.
/// It refuses with `INVALID_ID` where the barrier is unknown.
pub(crate) fn barrier_release(
    clusters: &mut [ClusterPart],
    groups: &mut [GroupPart],
    caller: ThreadIx,
    id: Target,
) -> Answer
    requires queue { (i : ℕ) → object_named (lent_both clusters.old groups.old) caller Barrier id ≡ Some i → IsQueueOf clusters.old groups.old (OfBarrier i) }
    ensures { (s : ScenarioView) → DoesBoth s (λ k. barrier_release k caller id) result clusters.old groups.old clusters.new groups.new }
{
    match barrier_named(clusters, groups, caller, id) {
        None => Answer::Refused(Status::InvalidId),
        Some(index) => done(release_all(clusters, groups, index)),
    }
}

/// Ends the life of a barrier: its waits end, its index is free, and nothing is left of it.
fn without_barrier(
    clusters: &mut [ClusterPart],
    groups: &mut [GroupPart],
    names: &mut Table,
    index: u16,
)
    requires low { 1 ≤ index }
    requires high { index ≤ MOST_OBJECTS }
    requires live { (barrier_lent groups.old index).live ≡ true }
    requires queue { IsQueueOf clusters.old groups.old (OfBarrier index) }
    requires named { IsNamed names.old.barriers (λ i. (barrier_lent groups.old i).live) }
    ensures { (s : ScenarioView) → BecomesEvery s (λ k. without_barrier k index) clusters.old groups.old names.old clusters.new groups.new names.new }
{
    barriers::remove(groups, index);
    wake_all(clusters, wakes_of(groups, index));
    remove(names, Class::Barrier, index);
}

/// `barrier.delete` (`rtems_barrier_delete`): ends the life of a barrier, whose waits end with
/// `OBJECT_WAS_DELETED`. It refuses with `INVALID_ID` where the barrier is unknown.
pub(crate) fn barrier_delete(
    clusters: &mut [ClusterPart],
    groups: &mut [GroupPart],
    names: &mut Table,
    caller: ThreadIx,
    id: Target,
) -> Answer
    requires queue { (i : ℕ) → object_named (lent_both clusters.old groups.old) caller Barrier id ≡ Some i → IsQueueOf clusters.old groups.old (OfBarrier i) }
    requires named { IsNamed names.old.barriers (λ i. (barrier_lent groups.old i).live) }
    ensures { (s : ScenarioView) → DoesEvery s (λ k. barrier_delete k caller id) result clusters.old groups.old names.old clusters.new groups.new names.new }
{
    match barrier_named(clusters, groups, caller, id) {
        None => Answer::Refused(Status::InvalidId),
        Some(index) => {
            without_barrier(clusters, groups, names, index);
            done(0)
        }
    }
}

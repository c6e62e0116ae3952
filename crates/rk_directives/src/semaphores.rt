//! The directives of the semaphore manager.

ghost use Rattle.std.specs.Prelude.{◌≡◌, ◌≢◌, ◌≤◌, ℕ, List, IfSome, IsTrue, None, Some, false, length, true, ◌<◌};
ghost use Rattle.rk_model.specs.declared.ids.Class.TheVariants.{Semaphore};
ghost use Rattle.rk_model.specs.declared.limits.TheConstants.{MOST_CLUSTERS, MOST_OBJECTS};
ghost use Rattle.rk_model.specs.declared.scenario.Scenario.{Scenario as ScenarioView};
ghost use Rattle.rk_model.specs.declared.scenario.Wish.TheVariants.{Limit};
ghost use Rattle.rk_model.specs.declared.state.Armer.TheVariants.{Thread as OfThread};
ghost use Rattle.rk_model.specs.declared.status.Status.TheVariants.{Unsatisfied};
ghost use Rattle.rk_model.specs.declared.waiting.Order.TheVariants.{Priority};
ghost use Rattle.rk_model.specs.Directives.Objects.{has_begun, object_named};
ghost use Rattle.rk_model.specs.Directives.Semaphores.{create_refusal, emptied_at, flushed, obtained_at, obtaining, reaches_from, released_at, releasing, semaphore_create, semaphore_delete, semaphore_flush, semaphore_ident, semaphore_obtain, semaphore_release, semaphore_set_priority, set_at, setting_ceiling, up_to_date, up_to_date_by, without_semaphore};
ghost use Rattle.rk_model.specs.Directives.Waits.{OfSemaphore, caller_at};
ghost use Rattle.rk_model.specs.Scheduling.Timers.{times_armed};
ghost use Rattle.rk_model.specs.State.{Plain, semaphore_at};
ghost use Rattle.rk_directives.specs.Does.{BecomesBoth, BecomesEvery, DoesBoth, DoesEvery, HavePriorities, IsQueueOf, Notes, OwnersLive, Tells, lent_both, with_table};
ghost use Rattle.rk_directives.specs.Calls.{deleted_at, ticks_of};
ghost use Rattle.rk_groups.specs.declared.group.GroupPart.{GroupPart as GroupView};
ghost use Rattle.rk_groups.specs.Groups.{PutsSemaphore, holds_semaphores};
ghost use Rattle.rk_parts.specs.Holdings.{AreHeld, holding_of, holdings};
ghost use Rattle.rk_groups.specs.GroupObjects.{semaphore_lent, semaphores_of};
ghost use Rattle.rk_parts.specs.Joined.{thread_lent, timers_lent};
ghost use Rattle.rk_parts.specs.NamesAgree.{IsNamed};

use crate::chains::reaches_from;
use crate::objects::{bits_of, create, ident, remove};
use crate::outcomes::{answered, done};
use crate::waits::{caller_of, start_limited, wake_all};
use rk_groups::group::GroupPart;
use rk_groups::semaphores::{self, ceilings, is_live, owner, protocol, spins, waiter, wakes_of};
use rk_model::limits::MOST_OBJECTS;
use rk_model::{
    Answer, Caller, Class, Id, Name, Order, Protocol, SemSpec, Status, Target, ThreadIx, Wait, Wish,
};
use rk_parts::holdings::{Holding, note_owner};
use rk_parts::parts::ClusterPart;
use rk_parts::standing::prio_at_home;
use rk_parts::table::Table;
use rk_sem::SemStore;

/// The index of the semaphore that a caller asks for; `None` exactly where the id is unknown.
fn semaphore_named(
    clusters: &[ClusterPart],
    groups: &[GroupPart],
    caller: ThreadIx,
    id: Target,
) -> Option<u16>
    ensures found { result ≡ object_named (lent_both clusters.now groups.now) caller Semaphore id }
    ensures low { IfSome result (λ i. 1 ≤ i) }
    ensures high { IfSome result (λ i. i ≤ MOST_OBJECTS) }
    ensures lives { IfSome result (λ i. (semaphore_lent groups.now i).live ≡ true) }
{
    let bits = bits_of(clusters, caller, id);
    let index = Id { bits }.index_in(Class::Semaphore)?;
    if is_live(groups, index) {
        Some(index)
    } else {
        None
    }
}

/// Why a semaphore can't be created, if it can't.
fn create_refusal(spec: SemSpec, by: Caller) -> Option<Status>
    ensures { result ≡ create_refusal spec by.prio }
{
    match spec.protocol {
        Protocol::Mrsp => Some(Status::NotDefined),
        _ => match SemStore::judge(spec, by) {
            Status::Successful => None,
            status => Some(status),
        },
    }
}

/// How a semaphore is held by its owner, if it has one.
fn holding(groups: &[GroupPart], index: u16) -> Option<Holding>
    ensures { result ≡ holding_of (semaphore_lent groups.now index) }
{
    match owner(groups, index) {
        None => None,
        Some(owner) => Some(Holding {
            owner,
            protocol: protocol(groups, index),
            ceilings: ceilings(groups, index),
        }),
    }
}

/// Whether a semaphore is held alike.
fn is_same(was: &Option<Holding>, now: &Option<Holding>) -> bool
    ensures same { IsTrue result → now.now ≡ was.now }
    ensures other { result ≡ false → now.now ≢ was.now }
{
    match was {
        None => now.is_none(),
        Some(was) => match now {
            None => false,
            Some(now) => {
                was.owner == now.owner
                    && was.protocol == now.protocol
                    && was.ceilings == now.ceilings
            }
        },
    }
}

/// Lets the owner of a semaphore hold it, which was held so before, if it had an owner. Where it is held
/// otherwise now, its owner lives.
fn note(clusters: &mut [ClusterPart], groups: &[GroupPart], index: u16, before: &Option<Holding>)
    requires low { 1 ≤ index }
    requires high { index ≤ MOST_OBJECTS }
    requires lives { holding_of (semaphore_lent groups.now index) ≢ before.now → (t : ℕ) → (semaphore_lent groups.now index).owner ≡ Some t → has_begun (thread_lent clusters.old t).life ≡ true }
    ensures { Notes clusters.old index before.now (holding_of (semaphore_lent groups.now index)) clusters.new }
{
    let now = holding(groups, index);
    if !is_same(before, &now) {
        note_owner(clusters, index, now);
    }
}

/// `sem.create` (`rtems_semaphore_create`): makes a semaphore for which none waits, and answers its id.
/// A binary one with count 0 is owned by the caller, and a ceiling semaphore belongs to its home.
/// It refuses
///
/// 1. with `INVALID_NAME` where the name is 0,
/// 2. with `NOT_DEFINED` where the protocol is `Mrsp`, or isn't `NoProtocol` and the kind isn't `Binary`,
/// 3. with `INVALID_NUMBER` where the kind isn't `Counting` and the count is above 1,
/// 4. with `INVALID_PRIORITY` where the protocol is `Ceiling`, and the ceiling is 0 or above 255, or the
///    count is 0 and the caller's priority is less than the ceiling,
/// 5. with `TOO_MANY` where 64 semaphores live.
pub(crate) fn semaphore_create(
    clusters: &mut [ClusterPart],
    groups: &mut [GroupPart],
    names: &mut Table,
    caller: ThreadIx,
    name: Name,
    spec: SemSpec,
) -> Answer
    requires lives { has_begun (thread_lent clusters.old caller).life ≡ true }
    requires named { IsNamed names.old.semaphores (λ i. (semaphore_lent groups.old i).live) }
    requires lent { (i : ℕ) → 1 ≤ i → i ≤ MOST_OBJECTS → holds_semaphores groups.old i ≡ true }
    requires prios { HavePriorities clusters.old groups.old }
    ensures { (s : ScenarioView) → DoesEvery s (λ k. semaphore_create k caller name.bits spec) result clusters.old groups.old names.old clusters.new groups.new names.new }
{
    let refusal = create_refusal(spec, caller_of(clusters, caller));
    match create(names, Class::Semaphore, name, refusal) {
        Err(status) => Answer::Refused(status),
        Ok(index) => {
            let before = holding(groups, index);
            semaphores::create(groups, index, spec, caller_of(clusters, caller));
            note(clusters, groups, index, &before);
            done(Id::of(Class::Semaphore, index).bits)
        }
    }
}

/// `sem.ident` (`rtems_semaphore_ident`): answers the id of the semaphore of least index that has the
/// name. It refuses with `INVALID_NAME` where there is no such semaphore.
pub(crate) fn semaphore_ident(names: &Table, name: Name) -> Answer
    ensures { (k : Plain) → Tells (semaphore_ident (with_table k names.now) name.bits) result (with_table k names.now) }
{
    ident(names, Class::Semaphore, name)
}

/// The limit in ticks of one who wishes so; 0 where there is none.
fn limit_of(wish: Wish) -> u32
    ensures { result ≡ ticks_of wish }
{
    match wish {
        Wish::NoWait => 0,
        Wish::Limit(ticks) => ticks,
    }
}

/// Whether a caller with this wish would close a cycle of waits: it wishes to wait, and the chain of the
/// semaphore's owner, if it has one, reaches it.
fn closes(clusters: &[ClusterPart], owner: Option<ThreadIx>, caller: ThreadIx, wish: Wish) -> bool
    ensures { (ticks : ℕ) → wish ≡ Limit ticks → (groups : List GroupView) → AreHeld (holdings clusters.now) (semaphores_of groups) → result ≡ reaches_from (lent_both clusters.now groups) owner caller }
{
    match wish {
        Wish::NoWait => false,
        Wish::Limit(_) => reaches_from(clusters, owner, caller),
    }
}

/// Obtains a semaphore for the caller, or lets it wait.
fn obtain_at(
    clusters: &mut [ClusterPart],
    groups: &mut [GroupPart],
    caller: ThreadIx,
    index: u16,
    wish: Wish,
) -> Answer
    requires low { 1 ≤ index }
    requires high { index ≤ MOST_OBJECTS }
    requires live { (semaphore_lent groups.old index).live ≡ true }
    requires lives { has_begun (thread_lent clusters.old caller).life ≡ true }
    requires free { (thread_lent clusters.old caller).wait ≡ None }
    requires unarmed { times_armed (OfThread caller) (timers_lent clusters.old caller) ≡ 0 }
    requires held { AreHeld (holdings clusters.old) (semaphores_of groups.old) }
    requires queue { IsQueueOf clusters.old groups.old (OfSemaphore index) }
    requires prios { HavePriorities clusters.old groups.old }
    ensures { (s : ScenarioView) → DoesBoth s (λ k. obtained_at k caller index (obtaining (caller_at k caller) wish (reaches_from k (semaphore_at k index).owner caller) (semaphore_at k index))) result clusters.old groups.old clusters.new groups.new }
{
    let by = caller_of(clusters, caller);
    let before = holding(groups, index);
    let closes = closes(clusters, owner(groups, index), caller, wish);
    let spins = spins(groups, index);
    let reply = semaphores::obtain(groups, index, by, wish, closes);
    if let Status::Waits = reply.status {
        start_limited(
            clusters,
            caller,
            Wait::ForSemaphore(index, spins),
            limit_of(wish),
        );
        Answer::Waiting
    } else {
        note(clusters, groups, index, &before);
        answered(reply)
    }
}

/// `sem.obtain` (`rtems_semaphore_obtain`): obtains a semaphore, or waits for it; its owner obtains it
/// once more. It refuses
///
/// 1. with `INVALID_ID` where the semaphore is unknown,
/// 2. with `NOT_DEFINED` where it has a ceiling, but none in the caller's home,
/// 3. with `UNSATISFIED` where the caller owns it, and it is a MrsP one or was obtained 2^64 - 1 times,
/// 4. with `INVALID_PRIORITY` where another task calls, whose priority is less than the ceiling in its
///    home,
/// 5. with `UNSATISFIED` where it isn't free, and the caller doesn't wish to wait,
/// 6. with `INCORRECT_STATE` where the chain of its owner reaches the caller.
pub(crate) fn semaphore_obtain(
    clusters: &mut [ClusterPart],
    groups: &mut [GroupPart],
    caller: ThreadIx,
    id: Target,
    wish: Wish,
) -> Answer
    requires lives { has_begun (thread_lent clusters.old caller).life ≡ true }
    requires free { (thread_lent clusters.old caller).wait ≡ None }
    requires unarmed { times_armed (OfThread caller) (timers_lent clusters.old caller) ≡ 0 }
    requires held { AreHeld (holdings clusters.old) (semaphores_of groups.old) }
    requires queue { (i : ℕ) → object_named (lent_both clusters.old groups.old) caller Semaphore id ≡ Some i → IsQueueOf clusters.old groups.old (OfSemaphore i) }
    requires prios { HavePriorities clusters.old groups.old }
    ensures { (s : ScenarioView) → DoesBoth s (λ k. semaphore_obtain k caller id wish) result clusters.old groups.old clusters.new groups.new }
{
    match semaphore_named(clusters, groups, caller, id) {
        None => Answer::Refused(Status::InvalidId),
        Some(index) => obtain_at(clusters, groups, caller, index, wish),
    }
}

/// Gives each waiter of a semaphore the priority that its thread has in its home.
fn update_waiters(clusters: &[ClusterPart], groups: &mut [GroupPart], index: u16)
    requires low { 1 ≤ index }
    requires high { index ≤ MOST_OBJECTS }
    requires live { (semaphore_lent groups.old index).live ≡ true }
    requires few { length (semaphore_lent groups.old index).queue.arrivals ≤ MOST_OBJECTS }
    requires prios { HavePriorities clusters.now groups.old }
    ensures { PutsSemaphore groups.old index (record (semaphore_lent groups.old index) { queue = up_to_date_by (lent_both clusters.now groups.old) Priority (semaphore_lent groups.old index).queue }) groups.new }
{
    for at in 0..MOST_OBJECTS {
        match waiter(groups, index, at) {
            None => return,
            Some(thread) => {
                // Reading the index tells its range.
                let _index = thread.at();
                let prio = prio_at_home(clusters, thread);
                semaphores::reorder(groups, index, thread, prio);
            }
        }
    }
}

/// Brings the queue of a semaphore up to date, where it serves by priority.
fn bring_up_to_date(clusters: &[ClusterPart], groups: &mut [GroupPart], index: u16)
    requires low { 1 ≤ index }
    requires high { index ≤ MOST_OBJECTS }
    requires live { (semaphore_lent groups.old index).live ≡ true }
    requires few { length (semaphore_lent groups.old index).queue.arrivals ≤ MOST_OBJECTS }
    requires prios { HavePriorities clusters.now groups.old }
    ensures { PutsSemaphore groups.old index (up_to_date (lent_both clusters.now groups.old) (semaphore_lent groups.old index)) groups.new }
{
    if let Order::Priority = semaphores::order(groups, index) {
        update_waiters(clusters, groups, index);
    }
}

/// Releases a semaphore for the caller, and ends the wait of the one that it serves.
fn release_at(
    clusters: &mut [ClusterPart],
    groups: &mut [GroupPart],
    caller: ThreadIx,
    index: u16,
) -> Answer
    requires low { 1 ≤ index }
    requires high { index ≤ MOST_OBJECTS }
    requires live { (semaphore_lent groups.old index).live ≡ true }
    requires queue { IsQueueOf clusters.old groups.old (OfSemaphore index) }
    requires prios { HavePriorities clusters.old groups.old }
    ensures { (s : ScenarioView) → DoesBoth s (λ k. released_at k index (releasing caller (up_to_date k (semaphore_at k index)))) result clusters.old groups.old clusters.new groups.new }
{
    let before = holding(groups, index);
    if semaphores::serves(groups, index, caller) {
        bring_up_to_date(clusters, groups, index);
    }
    let reply = semaphores::release(groups, index, caller);
    note(clusters, groups, index, &before);
    wake_all(clusters, wakes_of(groups, index));
    answered(reply)
}

/// `sem.release` (`rtems_semaphore_release`): releases a semaphore, which the waiter gets that its queue
/// serves next. It refuses with `INVALID_ID` where the semaphore is unknown, with
/// `NOT_OWNER_OF_RESOURCE` where it is a binary one that the caller doesn't own, and with `UNSATISFIED`
/// where none waits for a counting one and its count can't rise.
pub(crate) fn semaphore_release(
    clusters: &mut [ClusterPart],
    groups: &mut [GroupPart],
    caller: ThreadIx,
    id: Target,
) -> Answer
    requires queue { (i : ℕ) → object_named (lent_both clusters.old groups.old) caller Semaphore id ≡ Some i → IsQueueOf clusters.old groups.old (OfSemaphore i) }
    requires prios { HavePriorities clusters.old groups.old }
    ensures { (s : ScenarioView) → DoesBoth s (λ k. semaphore_release k caller id) result clusters.old groups.old clusters.new groups.new }
{
    match semaphore_named(clusters, groups, caller, id) {
        None => Answer::Refused(Status::InvalidId),
        Some(index) => release_at(clusters, groups, caller, index),
    }
}

/// Ends all waits for a semaphore, which stays.
fn flush_at(clusters: &mut [ClusterPart], groups: &mut [GroupPart], index: u16)
    requires low { 1 ≤ index }
    requires high { index ≤ MOST_OBJECTS }
    requires live { (semaphore_lent groups.old index).live ≡ true }
    requires queue { IsQueueOf clusters.old groups.old (OfSemaphore index) }
    ensures { (s : ScenarioView) → BecomesBoth s (λ k. emptied_at k index (flushed (semaphore_at k index)) Unsatisfied) clusters.old groups.old clusters.new groups.new }
{
    let _reply = semaphores::flush(groups, index);
    wake_all(clusters, wakes_of(groups, index));
}

/// `sem.flush` (`rtems_semaphore_flush`): ends all waits for a semaphore, with `UNSATISFIED`. It refuses
/// with `INVALID_ID` where the semaphore is unknown.
pub(crate) fn semaphore_flush(
    clusters: &mut [ClusterPart],
    groups: &mut [GroupPart],
    caller: ThreadIx,
    id: Target,
) -> Answer
    requires queue { (i : ℕ) → object_named (lent_both clusters.old groups.old) caller Semaphore id ≡ Some i → IsQueueOf clusters.old groups.old (OfSemaphore i) }
    ensures { (s : ScenarioView) → DoesBoth s (λ k. semaphore_flush k caller id) result clusters.old groups.old clusters.new groups.new }
{
    match semaphore_named(clusters, groups, caller, id) {
        None => Answer::Refused(Status::InvalidId),
        Some(index) => {
            flush_at(clusters, groups, index);
            done(0)
        }
    }
}

/// Sets the ceiling of a semaphore in a cluster; its owner, if it has one, holds it so from now on.
fn set_priority_at(
    clusters: &mut [ClusterPart],
    groups: &mut [GroupPart],
    index: u16,
    cluster: u8,
    prio: u32,
) -> Answer
    requires low { 1 ≤ index }
    requires high { index ≤ MOST_OBJECTS }
    requires live { (semaphore_lent groups.old index).live ≡ true }
    requires owned { OwnersLive clusters.old groups.old }
    requires near { cluster < MOST_CLUSTERS }
    ensures { (s : ScenarioView) → DoesBoth s (λ k. set_at k index cluster prio (setting_ceiling cluster prio (semaphore_at k index))) result clusters.old groups.old clusters.new groups.new }
{
    let before = holding(groups, index);
    let reply = semaphores::set_ceiling(groups, index, cluster, prio);
    note(clusters, groups, index, &before);
    answered(reply)
}

/// `sem.set_priority` (`rtems_semaphore_set_priority`): sets the ceiling of a semaphore in a cluster,
/// and answers the one that it had there; with 0 it only answers that. It refuses with `INVALID_ID`
/// where the semaphore is unknown, with `INVALID_PRIORITY` where the priority is above 255, and with
/// `NOT_DEFINED` where the semaphore has no ceiling in the cluster.
pub(crate) fn semaphore_set_priority(
    clusters: &mut [ClusterPart],
    groups: &mut [GroupPart],
    caller: ThreadIx,
    id: Target,
    cluster: u8,
    prio: u32,
) -> Answer
    requires owned { OwnersLive clusters.old groups.old }
    requires near { cluster < MOST_CLUSTERS }
    ensures { (s : ScenarioView) → DoesBoth s (λ k. semaphore_set_priority k caller id cluster prio) result clusters.old groups.old clusters.new groups.new }
{
    match semaphore_named(clusters, groups, caller, id) {
        None => Answer::Refused(Status::InvalidId),
        Some(index) => set_priority_at(clusters, groups, index, cluster, prio),
    }
}

/// Ends the life of a semaphore without an owner: its waits end, its index is free, and nothing is left
/// of it.
fn without_semaphore(
    clusters: &mut [ClusterPart],
    groups: &mut [GroupPart],
    names: &mut Table,
    index: u16,
)
    requires low { 1 ≤ index }
    requires high { index ≤ MOST_OBJECTS }
    requires live { (semaphore_lent groups.old index).live ≡ true }
    requires unowned { (semaphore_lent groups.old index).owner ≡ None }
    requires queue { IsQueueOf clusters.old groups.old (OfSemaphore index) }
    requires named { IsNamed names.old.semaphores (λ i. (semaphore_lent groups.old i).live) }
    ensures { (s : ScenarioView) → BecomesEvery s (λ k. without_semaphore k index) clusters.old groups.old names.old clusters.new groups.new names.new }
{
    let _reply = semaphores::remove(groups, index);
    wake_all(clusters, wakes_of(groups, index));
    remove(names, Class::Semaphore, index);
}

/// Deletes a semaphore, unless it has an owner.
fn delete_at(
    clusters: &mut [ClusterPart],
    groups: &mut [GroupPart],
    names: &mut Table,
    index: u16,
) -> Answer
    requires low { 1 ≤ index }
    requires high { index ≤ MOST_OBJECTS }
    requires live { (semaphore_lent groups.old index).live ≡ true }
    requires queue { IsQueueOf clusters.old groups.old (OfSemaphore index) }
    requires named { IsNamed names.old.semaphores (λ i. (semaphore_lent groups.old i).live) }
    ensures { (s : ScenarioView) → DoesEvery s (λ k. deleted_at k index) result clusters.old groups.old names.old clusters.new groups.new names.new }
{
    match owner(groups, index) {
        Some(_) => Answer::Refused(Status::ResourceInUse),
        None => {
            without_semaphore(clusters, groups, names, index);
            done(0)
        }
    }
}

/// `sem.delete` (`rtems_semaphore_delete`): ends the life of a semaphore, whose waits end with
/// `OBJECT_WAS_DELETED`. It refuses with `INVALID_ID` where the semaphore is unknown, and with
/// `RESOURCE_IN_USE` where it has an owner.
pub(crate) fn semaphore_delete(
    clusters: &mut [ClusterPart],
    groups: &mut [GroupPart],
    names: &mut Table,
    caller: ThreadIx,
    id: Target,
) -> Answer
    requires queue { (i : ℕ) → object_named (lent_both clusters.old groups.old) caller Semaphore id ≡ Some i → IsQueueOf clusters.old groups.old (OfSemaphore i) }
    requires named { IsNamed names.old.semaphores (λ i. (semaphore_lent groups.old i).live) }
    ensures { (s : ScenarioView) → DoesEvery s (λ k. semaphore_delete k caller id) result clusters.old groups.old names.old clusters.new groups.new names.new }
{
    match semaphore_named(clusters, groups, caller, id) {
        None => Answer::Refused(Status::InvalidId),
        Some(index) => delete_at(clusters, groups, names, index),
    }
}

//! The semaphores of the lent groups. A semaphore is looked for by its index, and stands in the first
//! of the lent groups whose semaphores are those of its group.

ghost use Rattle.std.specs.Prelude.{◌≡◌, ◌<◌, ◌≤◌, [], IfSome, Some, length, slice_get, true, false};
ghost use Rattle.rk_model.specs.declared.limits.TheConstants.{MOST_CLUSTERS, MOST_OBJECTS};
ghost use Rattle.rk_model.specs.Directives.Waits.{OfSemaphore};
ghost use Rattle.rk_model.specs.declared.status.Status.TheVariants.{Successful};
ghost use Rattle.rk_model.specs.Directives.Semaphores.{has_obtained, is_mrsp, judged, new_semaphore, flushed, after_deleting, with_prio_of};
ghost use Rattle.rk_model.specs.Directives.Waits.{bare};
ghost use Rattle.rk_model.specs.Queues.{threads, waits_in, IsQueue};
ghost use Rattle.rk_model.specs.State.{no_semaphore};
ghost use Rattle.rk_places.specs.Stores.{IsOfGroup, IsStoreOf, stored_at, put_at};
ghost use Rattle.rk_sem.specs.SemaphoreCalls.{obtained, released, reply_to_obtain, reply_to_release, reply_to_remove, serves, woken_by_flush, woken_by_release, woken_by_remove, reply_to_set, with_set};
ghost use Rattle.rk_groups.specs.GroupObjects.{semaphore_lent, semaphores_of};
ghost use Rattle.rk_groups.specs.Groups.{group_at, semaphores_in, holds_semaphores, woken_in, PutsSemaphore, Leaves, left_semaphore};

use crate::group::{GroupPart, unknown};
use rk_model::limits::{MOST_CLUSTERS, MOST_OBJECTS};
use rk_model::{Caller, Order, Prio, Protocol, Reply, SemSpec, Status, ThreadIx, Wake, Wish};
use rk_sem::SemStore;

/// The first of the lent groups whose semaphores are those of an index's group. Its contract also
/// tells that each group has places for 64 semaphores.
fn place_of(groups: &[GroupPart], index: u16) -> Option<usize>
    requires { 1 ≤ index }
    ensures place { result ≡ semaphores_in groups.now index }
    ensures within { IfSome result (λ at. at < length groups.now) }
    ensures store { IfSome result (λ at. IsStoreOf no_semaphore (group_at groups.now at).semaphores) }
{
    for at in 0..groups.len() {
        if u16::from(groups[at].semaphores.group()) == (index - 1) % 4 {
            return Some(at);
        }
    }
    None
}

/// Whether a semaphore lives in the lent groups.
pub fn is_live(groups: &[GroupPart], index: u16) -> bool
    requires low { 1 ≤ index }
    requires high { index ≤ MOST_OBJECTS }
    ensures { result ≡ (semaphore_lent groups.now index).live }
{
    match place_of(groups, index) {
        Some(at) => groups[at].semaphores.is_live(index),
        None => false,
    }
}

/// The thread that owns a semaphore, if one does. There is no semaphore at 0 and above 64.
pub fn owner(groups: &[GroupPart], index: u16) -> Option<ThreadIx>
    ensures { result ≡ (semaphore_lent groups.now index).owner }
{
    if index < 1 || index as usize > MOST_OBJECTS {
        return None;
    }
    match place_of(groups, index) {
        Some(at) => groups[at].semaphores.owner(index),
        None => None,
    }
}

/// The protocol of a semaphore. There is no semaphore at 0 and above 64.
pub fn protocol(groups: &[GroupPart], index: u16) -> Protocol
    ensures { result ≡ (semaphore_lent groups.now index).protocol }
{
    if index < 1 || index as usize > MOST_OBJECTS {
        return Protocol::NoProtocol;
    }
    match place_of(groups, index) {
        Some(at) => groups[at].semaphores.protocol(index),
        None => Protocol::NoProtocol,
    }
}

/// The ceilings of a semaphore in the clusters 0 to 3; 0 where it has none.
pub fn ceilings(groups: &[GroupPart], index: u16) -> [u8; MOST_CLUSTERS]
    ensures { result ≡ (semaphore_lent groups.now index).ceilings }
{
    if index < 1 || index as usize > MOST_OBJECTS {
        return [0; MOST_CLUSTERS];
    }
    match place_of(groups, index) {
        Some(at) => groups[at].semaphores.ceilings(index),
        None => [0; MOST_CLUSTERS],
    }
}

/// Whether a thread owns a semaphore of the lent groups.
pub fn has_obtained(groups: &[GroupPart], thread: ThreadIx) -> bool
    ensures { result ≡ has_obtained (semaphores_of groups.now) thread }
{
    for at in 0..MOST_OBJECTS {
        let index = at as u16 + 1;
        if owner(groups, index) == Some(thread) {
            return true;
        }
    }
    false
}

/// The order in which the queue of a semaphore serves.
pub fn order(groups: &[GroupPart], index: u16) -> Order
    requires low { 1 ≤ index }
    requires high { index ≤ MOST_OBJECTS }
    ensures { result ≡ (semaphore_lent groups.now index).queue.order }
{
    match place_of(groups, index) {
        Some(at) => groups[at].semaphores.order(index),
        None => Order::Fifo,
    }
}

/// Whether those that wait for a semaphore spin: it is a MrsP one.
pub fn spins(groups: &[GroupPart], index: u16) -> bool
    requires low { 1 ≤ index }
    requires high { index ≤ MOST_OBJECTS }
    ensures { result ≡ is_mrsp (semaphore_lent groups.now index).protocol }
{
    match place_of(groups, index) {
        Some(at) => groups[at].semaphores.spins(index),
        None => false,
    }
}

/// The thread that waits for a semaphore with so many earlier arrivals, if there is one.
pub fn waiter(groups: &[GroupPart], index: u16, at: usize) -> Option<ThreadIx>
    requires low { 1 ≤ index }
    requires high { index ≤ MOST_OBJECTS }
    ensures { result ≡ slice_get (threads (semaphore_lent groups.now index).queue.arrivals) at }
{
    match place_of(groups, index) {
        Some(place) => groups[place].semaphores.waiter(index, at),
        None => None,
    }
}

/// Whether a release of a semaphore that lives by a thread would serve a waiter. Its contract also
/// tells what each queue is.
pub fn serves(groups: &[GroupPart], index: u16, by: ThreadIx) -> bool
    requires low { 1 ≤ index }
    requires high { index ≤ MOST_OBJECTS }
    requires live { (semaphore_lent groups.now index).live ≡ true }
    ensures value { result ≡ serves by (semaphore_lent groups.now index) }
    ensures queue { IsQueue (semaphore_lent groups.now index).queue.arrivals (semaphore_lent groups.now index).queue.turns }
{
    match place_of(groups, index) {
        Some(at) => {
            let _waits = groups[at].semaphores.waits_at(index, by);
            groups[at].semaphores.serves(index, by)
        }
        None => false,
    }
}

/// Makes a semaphore, where none lives. A binary one with count 0 is owned by the caller.
pub fn create(groups: &mut [GroupPart], index: u16, spec: SemSpec, by: Caller)
    requires low { 1 ≤ index }
    requires high { index ≤ MOST_OBJECTS }
    requires lent { holds_semaphores groups.old index ≡ true }
    requires vacant { (semaphore_lent groups.old index).live ≡ false }
    requires judged { judged spec by ≡ Successful }
    requires kept { is_mrsp spec.protocol ≡ false }
    ensures { PutsSemaphore groups.old index (new_semaphore spec by) groups.new }
{
    if let Some(at) = place_of(groups, index) {
        groups[at].semaphores.create(index, spec, by);
    }
}

/// Obtains a semaphore that lives for a task, or lets it wait, unless it doesn't wish to, or `closes`
/// holds, which says whether the chain of the owner reaches the task.
pub fn obtain(groups: &mut [GroupPart], index: u16, by: Caller, wish: Wish, closes: bool) -> Reply
    requires low { 1 ≤ index }
    requires high { index ≤ MOST_OBJECTS }
    requires live { (semaphore_lent groups.old index).live ≡ true }
    requires absent { waits_in (semaphore_lent groups.old index).queue by.thread ≡ false }
    ensures semaphore { PutsSemaphore groups.old index (obtained by wish closes (semaphore_lent groups.old index)) groups.new }
    ensures reply { result ≡ reply_to_obtain by wish closes (semaphore_lent groups.old index) }
{
    match place_of(groups, index) {
        Some(at) => groups[at].semaphores.obtain(index, by, wish, closes),
        None => unknown(),
    }
}

/// Releases a semaphore of a group, and notes whose wait ends.
fn release_in(group: &mut GroupPart, index: u16, by: ThreadIx) -> Reply
    requires place { IsOfGroup group.old.semaphores.group index }
    requires live { (stored_at no_semaphore group.old.semaphores index).live ≡ true }
    ensures group { group.new ≡ record group.old { semaphores = put_at group.old.semaphores index (released by (stored_at no_semaphore group.old.semaphores index)); wakes = woken_by_release by (stored_at no_semaphore group.old.semaphores index) } }
    ensures reply { result ≡ reply_to_release by (stored_at no_semaphore group.old.semaphores index) }
{
    group.wakes.clear();
    group.semaphores.release(index, by, &mut group.wakes)
}

/// Releases a semaphore that lives: the waiter that its queue serves next, if there is one, gets it.
pub fn release(groups: &mut [GroupPart], index: u16, by: ThreadIx) -> Reply
    requires low { 1 ≤ index }
    requires high { index ≤ MOST_OBJECTS }
    requires live { (semaphore_lent groups.old index).live ≡ true }
    ensures semaphore { PutsSemaphore groups.old index (released by (semaphore_lent groups.old index)) groups.new }
    ensures woken { woken_in groups.new index ≡ woken_by_release by (semaphore_lent groups.old index) }
    ensures reply { result ≡ reply_to_release by (semaphore_lent groups.old index) }
{
    match place_of(groups, index) {
        Some(at) => release_in(&mut groups[at], index, by),
        None => unknown(),
    }
}

/// Flushes a semaphore of a group, and notes whose waits end.
fn flush_in(group: &mut GroupPart, index: u16) -> Reply
    requires place { IsOfGroup group.old.semaphores.group index }
    requires live { (stored_at no_semaphore group.old.semaphores index).live ≡ true }
    ensures group { group.new ≡ record group.old { semaphores = put_at group.old.semaphores index (flushed (stored_at no_semaphore group.old.semaphores index)); wakes = woken_by_flush (stored_at no_semaphore group.old.semaphores index) } }
    ensures reply { result ≡ bare Successful }
{
    group.wakes.clear();
    group.semaphores.flush(index, &mut group.wakes)
}

/// Flushes a semaphore that lives: all waits for it end.
pub fn flush(groups: &mut [GroupPart], index: u16) -> Reply
    requires low { 1 ≤ index }
    requires high { index ≤ MOST_OBJECTS }
    requires live { (semaphore_lent groups.old index).live ≡ true }
    ensures semaphore { PutsSemaphore groups.old index (flushed (semaphore_lent groups.old index)) groups.new }
    ensures woken { woken_in groups.new index ≡ woken_by_flush (semaphore_lent groups.old index) }
    ensures reply { result ≡ bare Successful }
{
    match place_of(groups, index) {
        Some(at) => flush_in(&mut groups[at], index),
        None => unknown(),
    }
}

/// Ends the life of a semaphore of a group, unless it has an owner, and notes whose waits end.
fn remove_in(group: &mut GroupPart, index: u16) -> Reply
    requires place { IsOfGroup group.old.semaphores.group index }
    requires live { (stored_at no_semaphore group.old.semaphores index).live ≡ true }
    ensures group { group.new ≡ record group.old { semaphores = put_at group.old.semaphores index (after_deleting (stored_at no_semaphore group.old.semaphores index)); wakes = woken_by_remove (stored_at no_semaphore group.old.semaphores index) } }
    ensures reply { result ≡ reply_to_remove (stored_at no_semaphore group.old.semaphores index) }
{
    group.wakes.clear();
    group.semaphores.remove(index, &mut group.wakes)
}

/// Ends the life of a semaphore that lives, unless it has an owner: all waits for it end.
pub fn remove(groups: &mut [GroupPart], index: u16) -> Reply
    requires low { 1 ≤ index }
    requires high { index ≤ MOST_OBJECTS }
    requires live { (semaphore_lent groups.old index).live ≡ true }
    ensures semaphore { PutsSemaphore groups.old index (after_deleting (semaphore_lent groups.old index)) groups.new }
    ensures woken { woken_in groups.new index ≡ woken_by_remove (semaphore_lent groups.old index) }
    ensures reply { result ≡ reply_to_remove (semaphore_lent groups.old index) }
{
    match place_of(groups, index) {
        Some(at) => remove_in(&mut groups[at], index),
        None => unknown(),
    }
}

/// Gives a thread that waits for a semaphore another priority in its queue, at its place.
pub fn reorder(groups: &mut [GroupPart], index: u16, thread: ThreadIx, prio: Prio)
    requires low { 1 ≤ index }
    requires high { index ≤ MOST_OBJECTS }
    requires live { (semaphore_lent groups.old index).live ≡ true }
    requires waits { waits_in (semaphore_lent groups.old index).queue thread ≡ true }
    ensures { PutsSemaphore groups.old index (with_prio_of thread prio (semaphore_lent groups.old index)) groups.new }
{
    if let Some(at) = place_of(groups, index) {
        groups[at].semaphores.reorder(index, thread, prio);
    }
}

/// Sets the ceiling of a semaphore that lives in a cluster, where it has one there.
pub fn set_ceiling(groups: &mut [GroupPart], index: u16, cluster: u8, prio: u32) -> Reply
    requires low { 1 ≤ index }
    requires high { index ≤ MOST_OBJECTS }
    requires live { (semaphore_lent groups.old index).live ≡ true }
    requires cluster { cluster < MOST_CLUSTERS }
    ensures semaphore { PutsSemaphore groups.old index (with_set cluster prio (semaphore_lent groups.old index)) groups.new }
    ensures reply { result ≡ reply_to_set cluster prio (semaphore_lent groups.old index) }
{
    match place_of(groups, index) {
        Some(at) => groups[at].semaphores.set_ceiling(index, cluster, prio),
        None => unknown(),
    }
}

/// Takes a thread out of the queue of a semaphore of a group, where it waits there.
fn leave_in(semaphores: &mut SemStore, index: u16, thread: ThreadIx)
    requires { IsOfGroup semaphores.old.group index }
    ensures { semaphores.new ≡ left_semaphore semaphores.old index thread }
{
    if semaphores.is_live(index) && semaphores.waits_at(index, thread) {
        semaphores.extract(index, thread);
    }
}

/// Takes a thread out of the queue of a semaphore, where it waits there.
pub(crate) fn leave_semaphore(groups: &mut [GroupPart], index: u16, thread: ThreadIx)
    ensures { Leaves groups.old thread (Some (OfSemaphore index)) groups.new }
{
    if index < 1 || index as usize > MOST_OBJECTS {
        return;
    }
    if let Some(at) = place_of(groups, index) {
        leave_in(&mut groups[at].semaphores, index, thread);
    }
}

/// The waits that the last call on a semaphore of the group of an index ended.
pub fn wakes_of(groups: &[GroupPart], index: u16) -> &[Wake]
    requires { 1 ≤ index }
    ensures { result.now ≡ woken_in groups.now index }
{
    match place_of(groups, index) {
        Some(at) => groups[at].wakes.list(),
        None => &[],
    }
}

//! The barriers of the lent groups. A barrier is looked for by its index, and stands in the first of the
//! lent groups that is the group of its index.

ghost use Rattle.std.specs.Prelude.{◌≡◌, ◌≢◌, ◌<◌, ◌≤◌, [], Some, IfSome, length, true, false};
ghost use Rattle.rk_model.specs.declared.limits.TheConstants.{MOST_OBJECTS};
ghost use Rattle.rk_model.specs.declared.status.Status.TheVariants.{Successful, ObjectWasDeleted};
ghost use Rattle.rk_model.specs.Directives.Waits.{OfBarrier};
ghost use Rattle.rk_model.specs.Lists.{has};
ghost use Rattle.rk_model.specs.State.{no_barrier};
ghost use Rattle.rk_model.specs.Directives.Barriers.{new_barrier};
ghost use Rattle.rk_model.specs.Queues.{waits_in, ended};
ghost use Rattle.rk_places.specs.Stores.{IsOfGroup, IsStoreOf, stored_at, put_at};
ghost use Rattle.rk_signal.specs.Barriers.{no_stored, emptied, successful, waited, woken_by_wait, reply_to_wait};
ghost use Rattle.rk_groups.specs.GroupObjects.{barrier_lent};
ghost use Rattle.rk_groups.specs.Groups.{group_at, group_in, is_lent, wakes_at, PutsBarrier, Leaves, ended_waits, waited_at, woken_at, reply_at, left_at};

use crate::group::{GroupPart, unknown};
use rk_model::limits::MOST_OBJECTS;
use rk_model::{Caller, Reply, ThreadIx, Wake};
use rk_signal::BarrierStore;

/// The first of the lent groups that is that of an index. Its contract also tells that each group
/// has places for 64 objects.
fn place_of(groups: &[GroupPart], index: u16) -> Option<usize>
    requires { 1 ≤ index }
    ensures place { result ≡ group_in groups.now index }
    ensures within { IfSome result (λ at. at < length groups.now) }
    ensures store { IfSome result (λ at. IsStoreOf no_stored (group_at groups.now at).barriers) }
{
    for at in 0..groups.len() {
        if u16::from(groups[at].barriers.group()) == (index - 1) % 4 {
            return Some(at);
        }
    }
    None
}

/// Whether a barrier lives in the lent groups.
pub fn is_live(groups: &[GroupPart], index: u16) -> bool
    requires low { 1 ≤ index }
    requires high { index ≤ MOST_OBJECTS }
    ensures { result ≡ (barrier_lent groups.now index).live }
{
    match place_of(groups, index) {
        Some(at) => groups[at].barriers.is_live(index),
        None => false,
    }
}

/// Makes a barrier, where none lives.
pub fn create(groups: &mut [GroupPart], index: u16, automatic: bool, most: u32)
    requires low { 1 ≤ index }
    requires high { index ≤ MOST_OBJECTS }
    requires lent { is_lent groups.old index ≡ true }
    requires vacant { (barrier_lent groups.old index).live ≡ false }
    requires some { automatic ≡ true → most ≢ 0 }
    ensures { PutsBarrier groups.old index (new_barrier automatic most) groups.new }
{
    if let Some(at) = place_of(groups, index) {
        groups[at].barriers.create(index, automatic, most);
    }
}

/// Waits at a barrier of a group, and notes whose waits end.
fn wait_in(group: &mut GroupPart, index: u16, by: Caller) -> Reply
    requires place { IsOfGroup group.old.barriers.group index }
    requires live { (stored_at no_stored group.old.barriers index).live ≡ true }
    requires absent { waits_in (stored_at no_stored group.old.barriers index).queue by.thread ≡ false }
    ensures group { group.new ≡ record group.old { barriers = put_at group.old.barriers index (waited by (stored_at no_stored group.old.barriers index)); wakes = woken_by_wait (stored_at no_stored group.old.barriers index) } }
    ensures reply { result ≡ reply_to_wait (stored_at no_stored group.old.barriers index) }
{
    group.wakes.clear();
    group.barriers.wait(index, by, &mut group.wakes)
}

/// A thread waits at a barrier that lives. Where this releases the barrier, all waits there end, and
/// the thread doesn't wait.
pub fn wait(groups: &mut [GroupPart], index: u16, by: Caller) -> Reply
    requires low { 1 ≤ index }
    requires high { index ≤ MOST_OBJECTS }
    requires live { (barrier_lent groups.old index).live ≡ true }
    requires absent { has (barrier_lent groups.old index).arrivals by.thread ≡ false }
    ensures barrier { PutsBarrier groups.old index (waited_at by.thread (barrier_lent groups.old index)) groups.new }
    ensures woken { wakes_at groups.new index ≡ woken_at (barrier_lent groups.old index) }
    ensures reply { result ≡ reply_at (barrier_lent groups.old index) }
{
    match place_of(groups, index) {
        Some(at) => wait_in(&mut groups[at], index, by),
        None => unknown(),
    }
}

/// Releases a barrier of a group, and notes whose waits end.
fn release_in(group: &mut GroupPart, index: u16) -> Reply
    requires place { IsOfGroup group.old.barriers.group index }
    requires live { (stored_at no_stored group.old.barriers index).live ≡ true }
    ensures group { group.new ≡ record group.old { barriers = put_at group.old.barriers index (emptied (stored_at no_stored group.old.barriers index)); wakes = ended Successful (stored_at no_stored group.old.barriers index).queue.arrivals } }
    ensures reply { result ≡ successful (length (stored_at no_stored group.old.barriers index).queue.arrivals) }
{
    group.wakes.clear();
    group.barriers.release(index, &mut group.wakes)
}

/// Releases a barrier that lives: all waits there end. The out number is how many these are.
pub fn release(groups: &mut [GroupPart], index: u16) -> Reply
    requires low { 1 ≤ index }
    requires high { index ≤ MOST_OBJECTS }
    requires live { (barrier_lent groups.old index).live ≡ true }
    ensures barrier { PutsBarrier groups.old index (record (barrier_lent groups.old index) { arrivals = [] }) groups.new }
    ensures woken { wakes_at groups.new index ≡ ended_waits Successful (barrier_lent groups.old index).arrivals }
    ensures reply { result ≡ record { status = Successful; out = length (barrier_lent groups.old index).arrivals } }
{
    match place_of(groups, index) {
        Some(at) => release_in(&mut groups[at], index),
        None => unknown(),
    }
}

/// Ends the life of a barrier of a group, and notes whose waits end.
fn remove_in(group: &mut GroupPart, index: u16)
    requires place { IsOfGroup group.old.barriers.group index }
    requires live { (stored_at no_stored group.old.barriers index).live ≡ true }
    ensures { group.new ≡ record group.old { barriers = put_at group.old.barriers index no_stored; wakes = ended ObjectWasDeleted (stored_at no_stored group.old.barriers index).queue.arrivals } }
{
    group.wakes.clear();
    let _reply = group.barriers.remove(index, &mut group.wakes);
}

/// Ends the life of a barrier that lives: all waits there end.
pub fn remove(groups: &mut [GroupPart], index: u16)
    requires low { 1 ≤ index }
    requires high { index ≤ MOST_OBJECTS }
    requires live { (barrier_lent groups.old index).live ≡ true }
    ensures barrier { PutsBarrier groups.old index no_barrier groups.new }
    ensures woken { wakes_at groups.new index ≡ ended_waits ObjectWasDeleted (barrier_lent groups.old index).arrivals }
{
    if let Some(at) = place_of(groups, index) {
        remove_in(&mut groups[at], index);
    }
}

/// Takes a thread out of a barrier of a group, where it waits there.
fn leave_in(barriers: &mut BarrierStore, index: u16, thread: ThreadIx)
    requires { IsOfGroup barriers.old.group index }
    ensures { barriers.new ≡ left_at barriers.old index thread }
{
    if barriers.is_live(index) && barriers.waits_at(index, thread) {
        barriers.extract(index, thread);
    }
}

/// Takes a thread out of a barrier, where it waits there.
pub(crate) fn leave_barrier(groups: &mut [GroupPart], index: u16, thread: ThreadIx)
    ensures { Leaves groups.old thread (Some (OfBarrier index)) groups.new }
{
    if index < 1 || index as usize > MOST_OBJECTS {
        return;
    }
    if let Some(at) = place_of(groups, index) {
        leave_in(&mut groups[at].barriers, index, thread);
    }
}

/// The waits that the last call on a barrier of the group of an index ended.
pub fn wakes_of(groups: &[GroupPart], index: u16) -> &[Wake]
    requires { 1 ≤ index }
    ensures { result.now ≡ wakes_at groups.now index }
{
    match place_of(groups, index) {
        Some(at) => groups[at].wakes.list(),
        None => &[],
    }
}

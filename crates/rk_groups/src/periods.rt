//! The periods of the lent groups. A period is looked for by its index, and stands in the first of the
//! lent groups whose periods are those of its group.

ghost use Rattle.std.specs.Prelude.{◌≡◌, ◌<◌, ◌≤◌, None, Some, IfSome, length, true, false};
ghost use Rattle.rk_model.specs.declared.limits.TheConstants.{MOST_OBJECTS};
ghost use Rattle.rk_model.specs.Directives.Periods.{end_of, is_awaited, new_period, passed};
ghost use Rattle.rk_model.specs.Directives.Tasks.{has_created};
ghost use Rattle.rk_places.specs.Stores.{IsStoreOf};
ghost use Rattle.rk_model.specs.State.{no_period};
ghost use Rattle.rk_period.specs.Periods.{Fits, waits_for, called, reply_to_call, passing_of, cancelled_by, reply_to_cancel, removed, reply_to_remove};
ghost use Rattle.rk_groups.specs.GroupObjects.{period_lent, periods_of};
ghost use Rattle.rk_groups.specs.Groups.{group_at, periods_in, holds_periods, PutsPeriod};

use crate::group::{GroupPart, unknown};
use rk_model::limits::MOST_OBJECTS;
use rk_model::{Reply, Stats, Status, ThreadIx};
use rk_period::Passed;

/// The first of the lent groups whose periods are those of an index's group. Its contract also tells
/// that each group has places for 64 periods.
fn place_of(groups: &[GroupPart], index: u16) -> Option<usize>
    requires { 1 ≤ index }
    ensures place { result ≡ periods_in groups.now index }
    ensures within { IfSome result (λ at. at < length groups.now) }
    ensures store { IfSome result (λ at. IsStoreOf no_period (group_at groups.now at).periods) }
{
    for at in 0..groups.len() {
        if u16::from(groups[at].periods.group()) == (index - 1) % 4 {
            return Some(at);
        }
    }
    None
}

/// Whether a period lives in the lent groups.
pub fn is_live(groups: &[GroupPart], index: u16) -> bool
    requires low { 1 ≤ index }
    requires high { index ≤ MOST_OBJECTS }
    ensures { result ≡ (period_lent groups.now index).live }
{
    match place_of(groups, index) {
        Some(at) => groups[at].periods.is_live(index),
        None => false,
    }
}

/// Makes an inactive period of a thread, where none lives.
pub fn create(groups: &mut [GroupPart], index: u16, by: ThreadIx)
    requires low { 1 ≤ index }
    requires high { index ≤ MOST_OBJECTS }
    requires lent { holds_periods groups.old index ≡ true }
    requires vacant { (period_lent groups.old index).live ≡ false }
    ensures { PutsPeriod groups.old index (new_period by) groups.new }
{
    if let Some(at) = place_of(groups, index) {
        groups[at].periods.create(index, by);
    }
}

/// The thread that created a period that lives.
pub fn creator(groups: &[GroupPart], index: u16) -> ThreadIx
    requires low { 1 ≤ index }
    requires high { index ≤ MOST_OBJECTS }
    requires live { (period_lent groups.now index).live ≡ true }
    ensures { result ≡ (period_lent groups.now index).creator }
{
    match place_of(groups, index) {
        Some(at) => groups[at].periods.creator(index),
        None => unreachable!(),
    }
}

/// The statistics of the ended jobs of a period that lives.
pub fn stats(groups: &[GroupPart], index: u16) -> Stats
    requires low { 1 ≤ index }
    requires high { index ≤ MOST_OBJECTS }
    requires live { (period_lent groups.now index).live ≡ true }
    ensures { result ≡ (period_lent groups.now index).stats }
{
    match place_of(groups, index) {
        Some(at) => groups[at].periods.stats(index),
        None => unreachable!(),
    }
}

/// Whether a thread created a period of the lent groups that lives.
pub fn has_created(groups: &[GroupPart], thread: ThreadIx) -> bool
    ensures { result ≡ has_created (periods_of groups.now) thread }
{
    for at in 0..MOST_OBJECTS {
        let index = at as u16 + 1;
        if is_live(groups, index) && creator(groups, index) == thread {
            return true;
        }
    }
    false
}

/// Begins the next job of a period that lives, where the caller is its creator, with a length in
/// ticks; with length 0 it only tells how the period stands. The caller has computed `used` ticks.
pub fn call(
    groups: &mut [GroupPart],
    index: u16,
    by: ThreadIx,
    length: u32,
    now: u64,
    used: u64,
) -> Reply
    requires low { 1 ≤ index }
    requires high { index ≤ MOST_OBJECTS }
    requires live { (period_lent groups.old index).live ≡ true }
    requires goes_on { waits_for (period_lent groups.old index) by ≡ false }
    requires fits { by ≡ (period_lent groups.old index).creator → Fits now used (period_lent groups.old index) }
    ensures period { PutsPeriod groups.old index (called by length now used (period_lent groups.old index)) groups.new }
    ensures reply { result ≡ reply_to_call by length (period_lent groups.old index) }
{
    match place_of(groups, index) {
        Some(at) => groups[at].periods.period(index, by, length, now, used),
        None => unknown(),
    }
}

/// Lets the end of a period that lives pass, which is the present tick: its next job starts where its
/// creator waits for it, and else one more is postponed. The creator has computed `used` ticks.
pub fn pass(groups: &mut [GroupPart], index: u16, now: u64, used: u64) -> Passed
    requires low { 1 ≤ index }
    requires high { index ≤ MOST_OBJECTS }
    requires live { (period_lent groups.old index).live ≡ true }
    requires due { end_of (period_lent groups.old index).phase ≡ Some now }
    requires fits { Fits now used (period_lent groups.old index) }
    ensures period { PutsPeriod groups.old index (passed now used (period_lent groups.old index)) groups.new }
    ensures passing { result ≡ passing_of (period_lent groups.old index).phase }
{
    match place_of(groups, index) {
        Some(at) => groups[at].periods.passed(index, now, used),
        None => unreachable!(),
    }
}

/// Makes a period that lives inactive, where the caller is its creator. Its running job isn't counted,
/// and its statistics stay.
pub fn cancel(groups: &mut [GroupPart], index: u16, by: ThreadIx) -> Reply
    requires low { 1 ≤ index }
    requires high { index ≤ MOST_OBJECTS }
    requires live { (period_lent groups.old index).live ≡ true }
    requires goes_on { waits_for (period_lent groups.old index) by ≡ false }
    ensures period { PutsPeriod groups.old index (cancelled_by by (period_lent groups.old index)) groups.new }
    ensures reply { result ≡ reply_to_cancel by (period_lent groups.old index) }
{
    match place_of(groups, index) {
        Some(at) => groups[at].periods.cancel(index, by),
        None => unknown(),
    }
}

/// Ends the life of a period that lives, unless its creator waits for it.
pub fn remove(groups: &mut [GroupPart], index: u16) -> Reply
    requires low { 1 ≤ index }
    requires high { index ≤ MOST_OBJECTS }
    requires live { (period_lent groups.old index).live ≡ true }
    ensures period { PutsPeriod groups.old index (removed (period_lent groups.old index)) groups.new }
    ensures reply { result ≡ reply_to_remove (period_lent groups.old index) }
{
    match place_of(groups, index) {
        Some(at) => groups[at].periods.remove(index),
        None => unknown(),
    }
}

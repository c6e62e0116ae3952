//! The directives of the rate-monotonic manager, and the end of a period.

ghost use Rattle.std.specs.Prelude.{◌≡◌, ◌≤◌, ◌<◌, ℕ, IfSome, List, Some, true, false};
ghost use Rattle.rk_model.specs.declared.ids.Class.TheVariants.{Period};
ghost use Rattle.rk_model.specs.declared.limits.TheConstants.{MOST_OBJECTS};
ghost use Rattle.rk_model.specs.declared.scenario.Scenario.{Scenario as ScenarioView};
ghost use Rattle.rk_model.specs.Directives.Objects.{has_begun, object_named};
ghost use Rattle.rk_model.specs.Directives.Periods.{called, cancelled_by, end_passed, ended_at, period_cancel, period_create, period_delete, period_ident, period_period};
ghost use Rattle.rk_model.specs.State.{Plain};
ghost use Rattle.rk_directives.specs.Does.{BecomesBoth, DoesBoth, DoesEvery, DoesGroups, MayCall, MayPass, Tells, lent_both, with_table};
ghost use Rattle.rk_groups.specs.Groups.{holds_periods};
ghost use Rattle.rk_groups.specs.GroupObjects.{period_lent};
ghost use Rattle.rk_parts.specs.Joined.{thread_lent};
ghost use Rattle.rk_parts.specs.NamesAgree.{IsNamed};
ghost use Rattle.rk_period.specs.Periods.{waits_for};

use crate::objects::{bits_of, create, ident, remove};
use crate::outcomes::{answered, bare, done};
use crate::waits::{end_wait, start_wait};
use rk_groups::group::GroupPart;
use rk_groups::periods::{self, creator, is_live};
use rk_model::{Answer, Armer, Class, Id, Name, Status, Target, ThreadIx, Wait};
use rk_parts::lent::thread_of;
use rk_parts::parts::ClusterPart;
use rk_parts::table::Table;
use rk_parts::ticks::present;
use rk_parts::timers::{arm, cancel};
use rk_period::Passed;

/// The index of the period that a caller asks for; `None` exactly where the id is unknown.
fn period_named(
    clusters: &[ClusterPart],
    groups: &[GroupPart],
    caller: ThreadIx,
    id: Target,
) -> Option<u16>
    ensures found { result ≡ object_named (lent_both clusters.now groups.now) caller Period id }
    ensures low { IfSome result (λ i. 1 ≤ i) }
    ensures high { IfSome result (λ i. i ≤ MOST_OBJECTS) }
    ensures lives { IfSome result (λ i. (period_lent groups.now i).live ≡ true) }
{
    let bits = bits_of(clusters, caller, id);
    let index = Id { bits }.index_in(Class::Period)?;
    if is_live(groups, index) {
        Some(index)
    } else {
        None
    }
}

/// `period.create` (`rtems_rate_monotonic_create`): makes an inactive period of the caller, and answers
/// its id. It refuses with `INVALID_NAME` where the name is 0, and with `TOO_MANY` where 64 periods
/// live.
pub(crate) fn period_create(
    groups: &mut [GroupPart],
    names: &mut Table,
    caller: ThreadIx,
    name: Name,
) -> Answer
    requires named { IsNamed names.old.periods (λ i. (period_lent groups.old i).live) }
    requires lent { (i : ℕ) → 1 ≤ i → i ≤ MOST_OBJECTS → holds_periods groups.old i ≡ true }
    ensures { (s : ScenarioView) → DoesGroups s (λ k. period_create k caller name.bits) result groups.old names.old groups.new names.new }
{
    match create(names, Class::Period, name, None) {
        Err(status) => Answer::Refused(status),
        Ok(index) => {
            periods::create(groups, index, caller);
            done(Id::of(Class::Period, index).bits)
        }
    }
}

/// `period.ident` (`rtems_rate_monotonic_ident`): answers the id of the period of least index that has
/// the name. It refuses with `INVALID_NAME` where there is no such period.
pub(crate) fn period_ident(names: &Table, name: Name) -> Answer
    ensures { (k : Plain) → Tells (period_ident (with_table k names.now) name.bits) result (with_table k names.now) }
{
    ident(names, Class::Period, name)
}

/// Begins the next job of a period, where the caller is its creator: arms the timer where it was
/// inactive, and lets the caller wait where it was active.
fn call_at(
    clusters: &mut [ClusterPart],
    groups: &mut [GroupPart],
    caller: ThreadIx,
    index: u16,
    length: u32,
) -> Answer
    requires low { 1 ≤ index }
    requires high { index ≤ MOST_OBJECTS }
    requires live { (period_lent groups.old index).live ≡ true }
    requires lives { has_begun (thread_lent clusters.old caller).life ≡ true }
    requires callable { MayCall clusters.old groups.old index caller }
    ensures { (s : ScenarioView) → DoesBoth s (λ k. called k caller index length) result clusters.old groups.old clusters.new groups.new }
{
    let now = u64::from(present(clusters));
    let used = u64::from(thread_of(clusters, caller).computed);
    let reply = periods::call(groups, index, caller, length, now, used);
    if length == 0 {
        return answered(reply);
    }
    match reply.status {
        Status::Successful => {
            arm(
                clusters,
                caller,
                Armer::Period(index as u8),
                now + u64::from(length),
            );
            done(0)
        }
        Status::Timeout => Answer::Done(Status::Timeout, 0, None),
        Status::Waits => {
            start_wait(clusters, caller, Wait::ForPeriod(index));
            Answer::Waiting
        }
        status => Answer::Refused(status),
    }
}

/// `period.period` (`rtems_rate_monotonic_period`): ends the running job of a period of the caller and
/// begins the next, whose length is in ticks. Where the period is inactive its first job starts; where
/// it is expired a postponed job starts, and the answer is `TIMEOUT`; where it is active the caller
/// waits for the end. With length 0 it only tells how the period stands. It refuses with `INVALID_ID`
/// where the period is unknown, with `NOT_OWNER_OF_RESOURCE` where the caller isn't its creator, and
/// with length 0 with `NOT_DEFINED` where the period is inactive and with `TIMEOUT` where it is expired.
pub(crate) fn period_period(
    clusters: &mut [ClusterPart],
    groups: &mut [GroupPart],
    caller: ThreadIx,
    id: Target,
    length: u32,
) -> Answer
    requires lives { has_begun (thread_lent clusters.old caller).life ≡ true }
    requires callable { (i : ℕ) → object_named (lent_both clusters.old groups.old) caller Period id ≡ Some i → MayCall clusters.old groups.old i caller }
    ensures { (s : ScenarioView) → DoesBoth s (λ k. period_period k caller id length) result clusters.old groups.old clusters.new groups.new }
{
    match period_named(clusters, groups, caller, id) {
        None => Answer::Refused(Status::InvalidId),
        Some(index) => call_at(clusters, groups, caller, index, length),
    }
}

/// Makes a period inactive, where the caller is its creator.
fn cancel_at(
    clusters: &mut [ClusterPart],
    groups: &mut [GroupPart],
    caller: ThreadIx,
    index: u16,
) -> Answer
    requires low { 1 ≤ index }
    requires high { index ≤ MOST_OBJECTS }
    requires live { (period_lent groups.old index).live ≡ true }
    requires lives { has_begun (thread_lent clusters.old caller).life ≡ true }
    requires goes_on { waits_for (period_lent groups.old index) caller ≡ false }
    ensures { (s : ScenarioView) → DoesBoth s (λ k. cancelled_by k caller index) result clusters.old groups.old clusters.new groups.new }
{
    match periods::cancel(groups, index, caller).status {
        Status::Successful => {
            cancel(clusters, caller, Armer::Period(index as u8));
            done(0)
        }
        status => Answer::Refused(status),
    }
}

/// `period.cancel` (`rtems_rate_monotonic_cancel`): makes a period of the caller inactive, without
/// postponed jobs. The running job isn't counted, and the statistics stay. It refuses with `INVALID_ID`
/// where the period is unknown, and with `NOT_OWNER_OF_RESOURCE` where the caller isn't its creator.
pub(crate) fn period_cancel(
    clusters: &mut [ClusterPart],
    groups: &mut [GroupPart],
    caller: ThreadIx,
    id: Target,
) -> Answer
    requires lives { has_begun (thread_lent clusters.old caller).life ≡ true }
    requires goes_on { (i : ℕ) → object_named (lent_both clusters.old groups.old) caller Period id ≡ Some i → waits_for (period_lent groups.old i) caller ≡ false }
    ensures { (s : ScenarioView) → DoesBoth s (λ k. period_cancel k caller id) result clusters.old groups.old clusters.new groups.new }
{
    match period_named(clusters, groups, caller, id) {
        None => Answer::Refused(Status::InvalidId),
        Some(index) => cancel_at(clusters, groups, caller, index),
    }
}

/// Ends the life of a period, unless its creator waits for it: its timer is cancelled, and its index is
/// free.
fn remove_at(
    clusters: &mut [ClusterPart],
    groups: &mut [GroupPart],
    names: &mut Table,
    index: u16,
) -> Answer
    requires low { 1 ≤ index }
    requires high { index ≤ MOST_OBJECTS }
    requires live { (period_lent groups.old index).live ≡ true }
    requires lives { has_begun (thread_lent clusters.old (period_lent groups.old index).creator).life ≡ true }
    requires named { IsNamed names.old.periods (λ i. (period_lent groups.old i).live) }
    ensures { (s : ScenarioView) → DoesEvery s (λ k. ended_at k index) result clusters.old groups.old names.old clusters.new groups.new names.new }
{
    let by = creator(groups, index);
    match periods::remove(groups, index).status {
        Status::Successful => {
            cancel(clusters, by, Armer::Period(index as u8));
            remove(names, Class::Period, index);
            done(0)
        }
        status => Answer::Refused(status),
    }
}

/// `period.delete` (`rtems_rate_monotonic_delete`): ends the life of a period. It refuses with
/// `INVALID_ID` where the period is unknown, and with `RESOURCE_IN_USE` where its creator waits for it.
pub(crate) fn period_delete(
    clusters: &mut [ClusterPart],
    groups: &mut [GroupPart],
    names: &mut Table,
    caller: ThreadIx,
    id: Target,
) -> Answer
    requires lives { (i : ℕ) → object_named (lent_both clusters.old groups.old) caller Period id ≡ Some i → has_begun (thread_lent clusters.old (period_lent groups.old i).creator).life ≡ true }
    requires named { IsNamed names.old.periods (λ i. (period_lent groups.old i).live) }
    ensures { (s : ScenarioView) → DoesEvery s (λ k. period_delete k caller id) result clusters.old groups.old names.old clusters.new groups.new names.new }
{
    match period_named(clusters, groups, caller, id) {
        None => Answer::Refused(Status::InvalidId),
        Some(index) => remove_at(clusters, groups, names, index),
    }
}

/// The end of a period, which is the present tick, passes: its timer, which was taken out, is armed for
/// the next end. Where its creator waits for it, the next job starts and the wait ends; else one more
/// job is postponed.
pub fn pass_end(clusters: &mut [ClusterPart], groups: &mut [GroupPart], index: u16)
    requires { MayPass clusters.old groups.old index }
    ensures { (s : ScenarioView) → BecomesBoth s (λ k. end_passed k index) clusters.old groups.old clusters.new groups.new }
{
    let by = creator(groups, index);
    let now = u64::from(present(clusters));
    let used = u64::from(thread_of(clusters, by).computed);
    match periods::pass(groups, index, now, used) {
        Passed::Woke(next_end) => {
            arm(clusters, by, Armer::Period(index as u8), next_end);
            end_wait(clusters, groups, by, bare(Status::Successful));
        }
        Passed::Postponed(next_end) => {
            arm(clusters, by, Armer::Period(index as u8), next_end);
        }
    }
}

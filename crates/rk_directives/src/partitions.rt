//! The directives of the partition manager.

ghost use Rattle.std.specs.Prelude.{◌≡◌, ◌≤◌, ℕ, IfSome, List, true};
ghost use Rattle.rk_model.specs.declared.ids.Class.TheVariants.{Partition};
ghost use Rattle.rk_model.specs.declared.limits.TheConstants.{MOST_OBJECTS};
ghost use Rattle.rk_model.specs.declared.scenario.Scenario.{Scenario as ScenarioView};
ghost use Rattle.rk_model.specs.Directives.Objects.{object_named};
ghost use Rattle.rk_model.specs.Directives.Partitions.{given_back_to, partition_create, partition_delete, partition_get, partition_ident, partition_return, removed_at, taken_first};
ghost use Rattle.rk_model.specs.State.{Plain, partition_at};
ghost use Rattle.rk_directives.specs.Does.{DoesBoth, DoesEvery, DoesGroups, Tells, lent_both, with_table};
ghost use Rattle.rk_parts.specs.declared.parts.ClusterPart.{ClusterPart as ClusterView};
ghost use Rattle.rk_groups.specs.Groups.{holds_partitions};
ghost use Rattle.rk_groups.specs.GroupObjects.{partition_lent};
ghost use Rattle.rk_parts.specs.NamesAgree.{IsNamed};

use crate::objects::{bits_of, create, ident, remove};
use crate::outcomes::{answered, done};
use rk_groups::group::GroupPart;
use rk_groups::partitions::{self, is_live};
use rk_model::{Answer, Class, Id, Name, Status, Target, ThreadIx};
use rk_partition::refusal;
use rk_parts::parts::ClusterPart;
use rk_parts::table::Table;

/// The index of the partition that a caller asks for; `None` exactly where the id is unknown.
fn partition_named(
    clusters: &[ClusterPart],
    groups: &[GroupPart],
    caller: ThreadIx,
    id: Target,
) -> Option<u16>
    ensures found { result ≡ object_named (lent_both clusters.now groups.now) caller Partition id }
    ensures low { IfSome result (λ i. 1 ≤ i) }
    ensures high { IfSome result (λ i. i ≤ MOST_OBJECTS) }
    ensures lives { IfSome result (λ i. (partition_lent groups.now i).live ≡ true) }
{
    let bits = bits_of(clusters, caller, id);
    let index = Id { bits }.index_in(Class::Partition)?;
    if is_live(groups, index) {
        Some(index)
    } else {
        None
    }
}

/// `part.create` (`rtems_partition_create`): makes a partition all of whose buffers are free, and
/// answers its id. It refuses with `INVALID_NAME` where the name is 0, with `INVALID_ADDRESS` or
/// `INVALID_SIZE` where the memory can't be divided so, and with `TOO_MANY` where 64 partitions live.
pub(crate) fn partition_create(
    groups: &mut [GroupPart],
    names: &mut Table,
    name: Name,
    start: u32,
    length: u32,
    size: u32,
) -> Answer
    requires named { IsNamed names.old.partitions (λ i. (partition_lent groups.old i).live) }
    requires lent { (i : ℕ) → 1 ≤ i → i ≤ MOST_OBJECTS → holds_partitions groups.old i ≡ true }
    ensures { (s : ScenarioView) → DoesGroups s (λ k. partition_create k name.bits start length size) result groups.old names.old groups.new names.new }
{
    match create(names, Class::Partition, name, refusal(start, length, size)) {
        Err(status) => Answer::Refused(status),
        Ok(index) => {
            partitions::create(groups, index, start, length, size);
            done(Id::of(Class::Partition, index).bits)
        }
    }
}

/// `part.ident` (`rtems_partition_ident`): answers the id of the partition of least index that has the
/// name. It refuses with `INVALID_NAME` where there is no such partition.
pub(crate) fn partition_ident(names: &Table, name: Name) -> Answer
    ensures { (k : Plain) → Tells (partition_ident (with_table k names.now) name.bits) result (with_table k names.now) }
{
    ident(names, Class::Partition, name)
}

/// Takes the first free buffer of a partition.
fn take_at(groups: &mut [GroupPart], index: u16) -> Answer
    requires low { 1 ≤ index }
    requires high { index ≤ MOST_OBJECTS }
    requires live { (partition_lent groups.old index).live ≡ true }
    ensures { (s : ScenarioView) (clusters : List ClusterView) → DoesBoth s (λ k. taken_first k index (partition_at k index).free) result clusters groups.old clusters groups.new }
{
    answered(partitions::take(groups, index))
}

/// `part.get` (`rtems_partition_get_buffer`): takes the first free buffer of a partition, and answers
/// its address. It refuses with `INVALID_ID` where the partition is unknown, and with `UNSATISFIED`
/// where no buffer is free.
pub(crate) fn partition_get(
    clusters: &[ClusterPart],
    groups: &mut [GroupPart],
    caller: ThreadIx,
    id: Target,
) -> Answer
    ensures { (s : ScenarioView) → DoesBoth s (λ k. partition_get k caller id) result clusters.now groups.old clusters.now groups.new }
{
    match partition_named(clusters, groups, caller, id) {
        None => Answer::Refused(Status::InvalidId),
        Some(index) => take_at(groups, index),
    }
}

/// Gives the buffer of an address back to a partition.
fn give_back_at(groups: &mut [GroupPart], index: u16, address: u32) -> Answer
    requires low { 1 ≤ index }
    requires high { index ≤ MOST_OBJECTS }
    requires live { (partition_lent groups.old index).live ≡ true }
    ensures { (s : ScenarioView) (clusters : List ClusterView) → DoesBoth s (λ k. given_back_to k index address) result clusters groups.old clusters groups.new }
{
    answered(partitions::give_back(groups, index, address))
}

/// `part.return` (`rtems_partition_return_buffer`): gives a buffer back to its partition, where it goes
/// last among the free ones. It refuses with `INVALID_ID` where the partition is unknown, and with
/// `INVALID_ADDRESS` where the address is that of no buffer, or of one that isn't out.
pub(crate) fn partition_return(
    clusters: &[ClusterPart],
    groups: &mut [GroupPart],
    caller: ThreadIx,
    id: Target,
    address: Target,
) -> Answer
    ensures { (s : ScenarioView) → DoesBoth s (λ k. partition_return k caller id address) result clusters.now groups.old clusters.now groups.new }
{
    match partition_named(clusters, groups, caller, id) {
        None => Answer::Refused(Status::InvalidId),
        Some(index) => give_back_at(groups, index, bits_of(clusters, caller, address)),
    }
}

/// Removes a partition, where no buffer is out.
fn remove_at(groups: &mut [GroupPart], names: &mut Table, index: u16) -> Answer
    requires low { 1 ≤ index }
    requires high { index ≤ MOST_OBJECTS }
    requires live { (partition_lent groups.old index).live ≡ true }
    requires named { IsNamed names.old.partitions (λ i. (partition_lent groups.old i).live) }
    ensures { (s : ScenarioView) → DoesGroups s (λ k. removed_at k index) result groups.old names.old groups.new names.new }
{
    match partitions::remove(groups, index).status {
        Status::Successful => {
            remove(names, Class::Partition, index);
            done(0)
        }
        status => Answer::Refused(status),
    }
}

/// `part.delete` (`rtems_partition_delete`): ends the life of a partition. It refuses with
/// `INVALID_ID` where the partition is unknown, and with `RESOURCE_IN_USE` where a buffer is out.
pub(crate) fn partition_delete(
    clusters: &[ClusterPart],
    groups: &mut [GroupPart],
    names: &mut Table,
    caller: ThreadIx,
    id: Target,
) -> Answer
    requires named { IsNamed names.old.partitions (λ i. (partition_lent groups.old i).live) }
    ensures { (s : ScenarioView) → DoesEvery s (λ k. partition_delete k caller id) result clusters.now groups.old names.old clusters.now groups.new names.new }
{
    match partition_named(clusters, groups, caller, id) {
        None => Answer::Refused(Status::InvalidId),
        Some(index) => remove_at(groups, names, index),
    }
}

//! The chains of threads that wait for semaphores, each on the owner of the one for which it waits. They
//! are followed in the parts of clusters alone: what a thread waits for stands with the thread, and who
//! owns a semaphore with its owner.

ghost use Rattle.std.specs.Prelude.{◌≡◌, List, length};
ghost use Rattle.rk_model.specs.Directives.Semaphores.{reaches_from};
ghost use Rattle.rk_model.specs.Scheduling.Chains.{reaches};
ghost use Rattle.rk_directives.specs.Does.{lent_both};
ghost use Rattle.rk_parts.specs.HeldChains.{waits_on_holder};
ghost use Rattle.rk_groups.specs.declared.group.GroupPart.{GroupPart as GroupView};
ghost use Rattle.rk_parts.specs.Holdings.{AreHeld, holdings};
ghost use Rattle.rk_groups.specs.GroupObjects.{semaphores_of};
ghost use Rattle.rk_parts.specs.Joined.{threads_of};

use rk_model::ThreadIx;
use rk_model::limits::MOST_OBJECTS;
use rk_parts::holdings::waits_on;
use rk_parts::parts::ClusterPart;

/// Whether the chain of a thread reaches another.
fn reaches(clusters: &[ClusterPart], from: ThreadIx, to: ThreadIx) -> bool
    ensures { result ≡ reaches (waits_on_holder clusters.now) (length (threads_of clusters.now)) from to }
{
    let mut at = from;
    for _step in 0..MOST_OBJECTS {
        if at == to {
            return true;
        }
        match waits_on(clusters, at) {
            None => return false,
            Some(next) => at = next,
        }
    }
    false
}

/// Whether the chain of a semaphore's owner, if it has one, reaches a thread.
pub(crate) fn reaches_from(clusters: &[ClusterPart], owner: Option<ThreadIx>, to: ThreadIx) -> bool
    ensures { (groups : List GroupView) → AreHeld (holdings clusters.now) (semaphores_of groups) → result ≡ reaches_from (lent_both clusters.now groups) owner to }
{
    match owner {
        None => false,
        Some(owner) => reaches(clusters, owner, to),
    }
}

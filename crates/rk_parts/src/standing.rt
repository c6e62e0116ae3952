ghost use Rattle.std.specs.Prelude.{◌≡◌};
ghost use Rattle.rk_model.specs.Scheduling.Priorities.{spins as spins_of, no_standing};
ghost use Rattle.rk_parts.specs.Joined.{lent};
ghost use Rattle.rk_parts.specs.Lending.{home_prio_lent, prio_lent};

use crate::bearing::is_spinning;
use crate::lent::thread_of;
use crate::parts::ClusterPart;
use rk_model::{Prio, Standing, ThreadIx};

/// How what is no thread stands.
pub fn not_standing() -> Standing
    ensures { result ≡ no_standing }
{
    Standing {
        cluster: None,
        prio: Prio::least_urgent(),
    }
}

/// Whether the thread spins.
pub fn spins(clusters: &[ClusterPart], thread: ThreadIx) -> bool
    ensures { result ≡ spins_of (lent clusters.now) thread }
{
    is_spinning(thread_of(clusters, thread).wait)
}

/// The priority of the thread in a cluster, if it has one there, as the parts have it from when they
/// settled last.
pub fn prio_of(clusters: &[ClusterPart], thread: ThreadIx, cluster: u8) -> Option<Prio>
    ensures { result ≡ prio_lent clusters.now thread cluster }
{
    for part in clusters {
        if part.lined.number() == cluster {
            return part.threads.prio(thread, cluster);
        }
    }
    None
}

/// The priority of the thread in its home; the least urgent one where it has none.
pub fn prio_at_home(clusters: &[ClusterPart], thread: ThreadIx) -> Prio
    ensures { result ≡ home_prio_lent clusters.now thread }
{
    let home = thread_of(clusters, thread).home;
    match prio_of(clusters, thread, home) {
        Some(prio) => prio,
        None => Prio::least_urgent(),
    }
}

//! The threads of the lent parts. A thread is looked for in all of them, and stands in that of its
//! home.

ghost use Rattle.std.specs.Prelude.{◌≡◌, ◌<◌, ◌≤◌, IfSome, IsSome, ℕ, length, true, false};
ghost use Rattle.rk_model.specs.State.{no_thread};
ghost use Rattle.rk_model.specs.Directives.Objects.{has_begun};
ghost use Rattle.rk_parts.specs.Joined.{held, thread_lent};
ghost use Rattle.rk_parts.specs.Lent.{found_in, number_in, Puts, Replaces};
ghost use Rattle.rk_parts.specs.Noted.{AreNoted};
ghost use Rattle.rk_parts.specs.Threads.{bearing};

use crate::parts::ClusterPart;
use rk_model::{Thread, ThreadIx};

/// The first of the lent parts in which a thread lives.
pub(crate) fn place_of(clusters: &[ClusterPart], thread: ThreadIx) -> Option<usize>
    ensures place { result ≡ found_in clusters.now thread }
    ensures within { IfSome result (λ at. at < length clusters.now) }
{
    for at in 0..clusters.len() {
        if clusters[at].threads.lives(thread) {
            return Some(at);
        }
    }
    None
}

/// The first of the lent parts that is of a cluster.
pub(crate) fn number_of(clusters: &[ClusterPart], number: u8) -> Option<usize>
    ensures place { result ≡ number_in clusters.now number }
    ensures within { IfSome result (λ at. at < length clusters.now) }
{
    for at in 0..clusters.len() {
        if clusters[at].lined.number() == number {
            return Some(at);
        }
    }
    None
}

/// The thread of an index that lives in one of the lent parts.
fn held_of(clusters: &[ClusterPart], thread: ThreadIx) -> Thread
    ensures { result ≡ held clusters.now thread }
{
    for part in clusters {
        if part.threads.lives(thread) {
            return part.threads.get(thread);
        }
    }
    Thread::absent()
}

/// The thread of an index, as the lent parts have it.
#[tactic(auto, using(crate::proofs::PutLemmas::thread_held))]
pub fn thread_of(clusters: &[ClusterPart], thread: ThreadIx) -> Thread
    ensures { result ≡ thread_lent clusters.now thread }
{
    // Reading the index tells its range.
    let _index = thread.at();
    held_of(clusters, thread)
}

/// Puts another thread that lives, with the same home, where one lives.
pub fn put(clusters: &mut [ClusterPart], index: ThreadIx, thread: Thread)
    requires lives { has_begun (thread_lent clusters.old index).life ≡ true }
    requires life { has_begun thread.life ≡ true }
    requires home { thread.home ≡ (thread_lent clusters.old index).home }
    ensures { Puts clusters.old index thread clusters.new }
{
    // Reading the index tells its range.
    let _index = index.at();
    if let Some(at) = place_of(clusters, index) {
        clusters[at].threads.put(index, thread);
    }
}

/// Puts another thread where one lives, that lives, has the same home and bears the same.
pub fn renew(clusters: &mut [ClusterPart], index: ThreadIx, thread: Thread)
    requires lives { has_begun (thread_lent clusters.old index).life ≡ true }
    requires life { has_begun thread.life ≡ true }
    requires home { thread.home ≡ (thread_lent clusters.old index).home }
    requires bears { bearing thread ≡ bearing (thread_lent clusters.old index) }
    ensures puts { Puts clusters.old index thread clusters.new }
    ensures noted { (count : ℕ) → AreNoted count clusters.old → AreNoted count clusters.new }
{
    // Reading the index tells its range.
    let _index = index.at();
    if let Some(at) = place_of(clusters, index) {
        clusters[at].threads.renew(index, thread);
    }
}

/// Makes a thread in the part of its home, where none of its index lives.
pub fn make(clusters: &mut [ClusterPart], index: ThreadIx, thread: Thread)
    requires absent { has_begun (thread_lent clusters.old index).life ≡ false }
    requires life { has_begun thread.life ≡ true }
    requires lent { IsSome (number_in clusters.old thread.home) }
    ensures { Replaces clusters.old index thread clusters.new }
{
    // Reading the index tells its range.
    let _index = index.at();
    if let Some(at) = number_of(clusters, thread.home) {
        clusters[at].threads.put(index, thread);
    }
}

/// Removes a thread that lives: nothing is left of it.
pub fn remove(clusters: &mut [ClusterPart], index: ThreadIx)
    requires { has_begun (thread_lent clusters.old index).life ≡ true }
    ensures { Replaces clusters.old index no_thread clusters.new }
{
    // Reading the index tells its range.
    let _index = index.at();
    if let Some(at) = place_of(clusters, index) {
        clusters[at].threads.put(index, Thread::absent());
    }
}

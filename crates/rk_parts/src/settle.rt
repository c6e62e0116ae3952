//! Rescheduling: ready queues follow what the marked threads ask, and processors the ready queues.

ghost use Rattle.std.specs.Prelude.{◌≡◌, [], IsTrue, map};
ghost use Rattle.std.specs.Option.{option_to_list};
ghost use Rattle.rk_model.specs.Lists.{has};
ghost use Rattle.rk_model.specs.Scheduling.Settling.{is_cluster, shift_of};
ghost use Rattle.rk_cluster.specs.Registers.{change_at};
ghost use Rattle.rk_parts.specs.Threads.{standings_by};
ghost use Rattle.rk_parts.specs.ClusterRegisters.{change_by, register};
ghost use Rattle.rk_parts.specs.Noted.{bare, settled_part, one_lives};

use crate::parts::ClusterPart;
use crate::threads::Threads;
use rk_cluster::{Change, Moves};
use rk_model::{Prio, Shift, Standing, ThreadIx};

/// Whether this is the number of a cluster.
fn is_number(cluster: u8, number: Option<u8>) -> bool
    ensures { result ≡ is_cluster cluster number }
{
    match number {
        None => false,
        Some(found) => found == cluster,
    }
}

/// What settling asks in a cluster of a thread that stood and stands like this.
#[tactic(auto, unfolding(rk_model::specs::Scheduling::Settling::shift_of))]
fn compare(cluster: u8, before: &Standing, now: &Standing, last: bool) -> Shift
    ensures { result ≡ shift_of cluster before.now now.now last }
{
    if !is_number(cluster, now.cluster) {
        Shift::Leave
    } else if !is_number(cluster, before.cluster)
        || now.prio.level() < before.prio.level()
        || last
    {
        Shift::ToEnd
    } else if before.prio.level() < now.prio.level() {
        Shift::ToFront
    } else {
        Shift::Stay
    }
}

/// The change of a thread with this shift and this priority, which stood in the ready queue before or
/// didn't; none where it stays, and where it neither stood there nor comes there.
fn change_for(stood: bool, asked: Shift, prio: Prio) -> Option<Change>
    ensures { result ≡ change_by stood asked prio }
{
    match asked {
        Shift::Stay => None,
        Shift::ToEnd => Some(Change::ToEnd(prio)),
        Shift::ToFront => Some(Change::ToFront(prio)),
        Shift::Leave => { if stood { Some(Change::Leave) } else { None } }
    }
}

/// Whether the thread is the one that goes last, if one does.
fn goes_last(last: &Option<ThreadIx>, thread: ThreadIx) -> bool
    ensures { result ≡ has (option_to_list last.now) thread }
{
    match last {
        None => false,
        Some(found) => *found == thread,
    }
}

/// The change of a thread in the register of a cluster.
#[tactic(auto, using(crate::proofs::StandingLemmas::standings_say_at), unfolding(rk_model::specs::Scheduling::Settling::shifts))]
fn change_of(
    threads: &Threads,
    last: &Option<ThreadIx>,
    cluster: u8,
    thread: ThreadIx,
) -> Option<Change>
    ensures { result ≡ register threads.now.stood (standings_by threads.now.shares threads.now.places) (option_to_list last.now) cluster thread }
{
    let before = threads.stood(thread);
    let now = threads.standing(thread);
    let asked = compare(cluster, &before, &now, goes_last(last, thread));
    change_for(is_number(cluster, before.cluster), asked, now.prio)
}

/// Writes the register of a cluster.
fn fill_register(out: &mut Moves, threads: &Threads, last: &Option<ThreadIx>, cluster: u8)
    ensures { change_at out.new ≡ register threads.now.stood (standings_by threads.now.shares threads.now.places) (option_to_list last.now) cluster }
{
    out.clear();
    let marked = threads.marked();
    for thread in marked {
        if let Some(change) = change_of(threads, last, cluster, *thread) {
            out.set(*thread, change);
        }
    }
    if let Some(thread) = last {
        if let Some(change) = change_of(threads, last, cluster, *thread) {
            out.set(*thread, change);
        }
    }
}

/// Whether the thread that goes last, if one does, lives in a part.
fn lives_last(threads: &Threads, last: &Option<ThreadIx>) -> bool
    ensures { result ≡ one_lives threads.now.places last.now }
{
    match last {
        None => false,
        Some(thread) => threads.lives(*thread),
    }
}

/// Whether nobody is marked in a part, no holding changed there, and the thread that goes last, if one
/// does, lives elsewhere.
/// Then the part is settled.
fn is_settled(part: &ClusterPart, last: &Option<ThreadIx>) -> bool
    ensures { IsTrue result → bare part.now ≡ settled_part (option_to_list last.now) part.now }
{
    // Reading the number tells that the processors are assigned.
    let _number = part.lined.number();
    part.threads.marked().is_empty()
        && !part.holdings.is_changed()
        && !lives_last(&part.threads, last)
}

/// Settles the part of a cluster after a change, where one thread may go last. It costs what the
/// threads do that were put since the part settled.
fn settle_part(part: &mut ClusterPart, last: &Option<ThreadIx>)
    ensures { bare part.new ≡ settled_part (option_to_list last.now) part.old }
{
    let number = part.lined.number();
    fill_register(&mut part.moves, &part.threads, last, number);
    part.lined.settle(&part.moves);
    part.threads.note();
    part.holdings.note();
}

/// Settles each of the lent parts, where no thread goes last.
fn settle_marked(clusters: &mut [ClusterPart])
    ensures { map bare clusters.new ≡ map (settled_part []) clusters.old }
{
    for at in 0..clusters.len() {
        if !is_settled(&clusters[at], &None) {
            settle_part(&mut clusters[at], &None);
        }
    }
}

/// Settles each of the lent parts, where one thread may go last.
fn settle_last(clusters: &mut [ClusterPart], last: &Option<ThreadIx>)
    ensures { map bare clusters.new ≡ map (settled_part (option_to_list last.now)) clusters.old }
{
    for at in 0..clusters.len() {
        if !is_settled(&clusters[at], last) {
            settle_part(&mut clusters[at], last);
        }
    }
}

/// Settles each of the lent parts.
pub fn settle_parts(clusters: &mut [ClusterPart], last: &Option<ThreadIx>)
    ensures { map bare clusters.new ≡ map (settled_part (option_to_list last.now)) clusters.old }
{
    match last {
        None => settle_marked(clusters),
        Some(_) => settle_last(clusters, last),
    }
}

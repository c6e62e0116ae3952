//! Whom processors help. It is found after each settling, and only where a thread of a processor spins.

ghost use Rattle.std.specs.Prelude.{◌≡◌, ◌<◌, ◌≤◌, ℕ, None, true, false, nat_lt, map, length, if◌then◌else◌};
ghost use Rattle.std.specs.List.{AllByRecursion};
ghost use Rattle.rk_model.specs.declared.limits.TheConstants.{MOST_OBJECTS, MOST_PROCESSORS};
ghost use Rattle.rk_mrsp.specs.Scenes.{cpu_in, link_of, has_seat};
ghost use Rattle.rk_parts.specs.declared.parts.ClusterPart.{ClusterPart as PartView};
ghost use Rattle.rk_parts.specs.Hosted.{could_run, link_lent, scene_lent, AreHosted, with_link, without_seats, with_seat, hosting_part, idle_part, has_spinner, IsStill};
ghost use Rattle.rk_parts.specs.Noted.{bare, part_at};
ghost use Rattle.rk_parts.specs.Seats.{seat_in};

use crate::bearing::{bearing_of, is_ready, is_spinning};
use crate::holdings::waits_on;
use crate::lent::thread_of;
use crate::parts::ClusterPart;
use crate::processors::cpu_of;
use crate::standing::spins;
use rk_model::limits::{MOST_OBJECTS, MOST_PROCESSORS};
use rk_model::{Thread, ThreadIx};
use rk_mrsp::{Link, host};

/// Whether a thread could run, by itself: it is eligible and waits for nothing.
fn could_run(thread: Thread) -> bool
    ensures { result ≡ could_run thread }
{
    is_ready(bearing_of(thread)) && thread.wait.is_none()
}

/// How a thread stands in its chain.
fn link_of(clusters: &[ClusterPart], thread: ThreadIx) -> Link
    ensures { result ≡ link_lent clusters.now thread }
{
    let found = thread_of(clusters, thread);
    Link {
        on: waits_on(clusters, thread),
        spins: is_spinning(found.wait),
        ready: could_run(found),
    }
}

/// Notes the link of a thread in a part.
fn note_link_in(part: &mut ClusterPart, thread: ThreadIx, link: &Link)
    ensures part { part.new ≡ with_link thread link.now part.old }
    ensures size { length part.new.chains ≡ MOST_OBJECTS }
{
    part.chains.set(thread, *link);
    let _count = part.chains.len();
}

/// Notes the link of a thread in each part.
fn note_link(clusters: &mut [ClusterPart], thread: ThreadIx, link: &Link)
    ensures links { clusters.new ≡ map (with_link thread link.now) clusters.old }
    ensures sizes { AllByRecursion (λ (part : PartView). length part.chains ≡ MOST_OBJECTS) clusters.new }
{
    for at in 0..clusters.len() {
        note_link_in(&mut clusters[at], thread, link);
    }
}

/// Notes the links of all threads.
fn note_links(clusters: &mut [ClusterPart])
    ensures kept { map bare clusters.new ≡ map bare clusters.old }
    ensures links { (at t : ℕ) → at < length clusters.new → t < 65 → link_of (part_at clusters.new at).chains t ≡ link_lent clusters.old t }
{
    for index in 1..MOST_OBJECTS as u8 + 1 {
        let thread = ThreadIx::new(index);
        let link = link_of(clusters, thread);
        note_link(clusters, thread, &link);
    }
}

/// Notes that no processor has a thread.
fn clear_seats(clusters: &mut [ClusterPart])
    ensures { clusters.new ≡ map without_seats clusters.old }
{
    for at in 0..clusters.len() {
        clusters[at].seats.clear();
    }
}

/// Notes that a processor has a thread.
fn note_seat(clusters: &mut [ClusterPart], cpu: u8, thread: ThreadIx)
    requires low { cpu < MOST_PROCESSORS }
    requires free { AllByRecursion (λ (part : PartView). has_seat part.seats cpu ≡ false) clusters.old }
    ensures { clusters.new ≡ map (with_seat cpu thread) clusters.old }
{
    for at in 0..clusters.len() {
        clusters[at].seats.add(cpu, thread);
    }
}

/// Whether no thread spins that a part has, and it is noted there that none is helped. It may also say
/// no where a thread spun once.
fn is_still(part: &ClusterPart) -> bool
    ensures { result ≡ true → IsStill part.now }
{
    !part.threads.may_spin() && part.hosting.is_empty()
}

/// Whether that holds of each of the lent parts.
fn are_still(clusters: &[ClusterPart]) -> bool
    ensures { result ≡ true → AllByRecursion IsStill clusters.now }
{
    for part in clusters {
        if !is_still(part) {
            return false;
        }
    }
    true
}

/// Whether the thread of a processor spins.
fn has_spinner(clusters: &[ClusterPart]) -> bool
    ensures { result ≡ has_spinner (scene_lent clusters.now) }
{
    for cpu in 0..MOST_PROCESSORS as u8 {
        if let Some(thread) = cpu_of(clusters, cpu) {
            if spins(clusters, thread) {
                return true;
            }
        }
    }
    false
}

/// Notes in a part whom processors help, by what it has noted.
fn host_in(part: &mut ClusterPart)
    ensures part { part.new ≡ hosting_part part.old }
    ensures size { length part.new.chains ≡ MOST_OBJECTS }
{
    let _count = part.chains.len();
    host(&part.chains, &part.seats, &mut part.hosting);
}

/// Notes whom processors help, by what each part has noted.
fn host_each(clusters: &mut [ClusterPart])
    ensures hosting { clusters.new ≡ map hosting_part clusters.old }
    ensures sizes { AllByRecursion (λ (part : PartView). length part.chains ≡ MOST_OBJECTS) clusters.new }
{
    for at in 0..clusters.len() {
        host_in(&mut clusters[at]);
    }
}

/// Notes that none is helped.
fn host_none(clusters: &mut [ClusterPart])
    ensures { clusters.new ≡ map idle_part clusters.old }
{
    for at in 0..clusters.len() {
        clusters[at].hosting.clear();
    }
}

/// Notes the thread of each processor.
fn note_seats(clusters: &mut [ClusterPart])
    ensures kept { map bare clusters.new ≡ map bare clusters.old }
    ensures links { (at : ℕ) → (part_at clusters.new at).chains ≡ (part_at clusters.old at).chains }
    ensures seats { (at p : ℕ) → at < length clusters.new → cpu_in (part_at clusters.new at).seats p ≡ (if nat_lt p MOST_PROCESSORS then seat_in clusters.old p else None) }
{
    clear_seats(clusters);
    for cpu in 0..MOST_PROCESSORS as u8 {
        if let Some(thread) = cpu_of(clusters, cpu) {
            note_seat(clusters, cpu, thread);
        }
    }
}

/// Notes whom the processors of the lent parts help, where there are no more than eight of them.
#[cold]
#[inline(never)]
pub fn host_anew(clusters: &mut [ClusterPart])
    ensures kept { map bare clusters.new ≡ map bare clusters.old }
    ensures hosted { ((p : ℕ) → MOST_PROCESSORS ≤ p → seat_in clusters.new p ≡ None) → AreHosted clusters.new }
{
    if has_spinner(clusters) {
        note_links(clusters);
        note_seats(clusters);
        host_each(clusters);
    } else {
        host_none(clusters);
    }
}

/// The same, which does nothing where no thread ever spun.
pub fn host_parts(clusters: &mut [ClusterPart])
    ensures kept { map bare clusters.new ≡ map bare clusters.old }
    ensures hosted { ((p : ℕ) → MOST_PROCESSORS ≤ p → seat_in clusters.new p ≡ None) → AreHosted clusters.new }
{
    if are_still(clusters) {
        return;
    }
    host_anew(clusters);
}

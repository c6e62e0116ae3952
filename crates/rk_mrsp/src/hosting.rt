ghost use Rattle.std.specs.Prelude.{◌≡◌, ◌≤◌, ◌<◌, ◌↔◌, ℕ, [], ◌∷◌, ◌++◌, ◌&&◌, not, length, IfOk, IsTrue};
ghost use Rattle.rk_model.specs.declared.limits.TheConstants.{MOST_PROCESSORS};
ghost use Rattle.rk_model.specs.Scheduling.Helping.{is_for, is_seated, offer, offered, is_taken, helped_in};
ghost use Rattle.rk_mrsp.specs.Scenes.{cpu_in, scene_in, hosts_of};

use crate::chains::{Chains, end};
use crate::seats::{Assigned, Seat, thread_in};
use rk_model::limits::MOST_PROCESSORS;
use rk_model::{Bounded, NoMemory, ThreadIx};
use std::alloc::Global;
use std::marker::Model;

/// The threads that processors help. Contracts see each processor that helps one, with that thread.
#[derive(Debug, Drop)]
pub struct Hosting {
    hosts: Bounded<Seat, MOST_PROCESSORS>,
}

impl Model for Hosting {
    ghost use Rattle.std.specs.Prelude.{List};
    ghost use Rattle.rk_mrsp.specs.declared.seats.Seat.{Seat};

    ghost Value = { List Seat };

    ghost view = { λ h. h.hosts };
}

impl Hosting {
    /// No processor helps a thread.
    ///
    /// # Errors
    ///
    /// `NoMemory` where there is no memory for 8 of them.
    pub fn new(alloc: Global) -> Result<Hosting, NoMemory>
        ensures { IfOk result (λ h. h ≡ []) }
    {
        Ok(Hosting {
            hosts: Bounded::new(alloc)?,
        })
    }

    /// The thread that a processor helps, if it helps one.
    pub fn helped(&self, cpu: u8) -> Option<ThreadIx>
        ensures { result ≡ cpu_in self.now cpu }
    {
        thread_in(self.hosts.as_slice(), cpu)
    }

    /// No processor helps a thread.
    pub fn clear(&mut self)
        ensures { self.new ≡ [] }
    {
        self.hosts.clear();
    }

    /// Whether no processor helps a thread.
    pub fn is_empty(&self) -> bool
        ensures { IsTrue result ↔ (self.now ≡ []) }
    {
        self.hosts.is_empty()
    }
}

/// Whether this is a thread.
fn is_thread(found: Option<ThreadIx>, thread: ThreadIx) -> bool
    ensures { result ≡ is_for thread found }
{
    match found {
        None => false,
        Some(other) => other == thread,
    }
}

/// Whether a processor has the thread.
#[tactic(auto, using(crate::proofs::ScanLemmas::seated_at, crate::proofs::ScanLemmas::sits_next, crate::proofs::ScanLemmas::seated_nowhere))]
fn is_seated(cpus: &Assigned, chains: &Chains, thread: ThreadIx) -> bool
    ensures { result ≡ is_seated (scene_in chains.now cpus.now) thread }
{
    for cpu in 0..MOST_PROCESSORS {
        if is_thread(thread_in(cpus.seats(), cpu as u8), thread) {
            return true;
        }
    }
    false
}

/// What a thread offers its processor for.
#[tactic(auto, unfolding(rk_model::specs::Scheduling::Helping::offer))]
fn offer_of(chains: &Chains, cpus: &Assigned, thread: ThreadIx) -> Option<ThreadIx>
    ensures { result ≡ offer (scene_in chains.now cpus.now) thread }
{
    let end = end(chains, thread);
    if chains.link(thread).spins && chains.link(end).ready && !is_seated(cpus, chains, end) {
        Some(end)
    } else {
        None
    }
}

/// What a processor is offered for.
fn offered(chains: &Chains, cpus: &Assigned, cpu: u8) -> Option<ThreadIx>
    ensures { result ≡ offered (scene_in chains.now cpus.now) cpu }
{
    match thread_in(cpus.seats(), cpu) {
        None => None,
        Some(thread) => offer_of(chains, cpus, thread),
    }
}

/// Whether a lesser processor is offered for a thread.
#[tactic(auto, using(crate::proofs::ScanLemmas::taken_at, crate::proofs::ScanLemmas::taken_next))]
fn is_taken(chains: &Chains, cpus: &Assigned, thread: ThreadIx, cpu: u8) -> bool
    ensures { result ≡ is_taken (scene_in chains.now cpus.now) thread cpu }
{
    for lesser in 0..cpu {
        if is_thread(offered(chains, cpus, lesser), thread) {
            return true;
        }
    }
    false
}

/// The thread that a processor helps.
#[tactic(auto, unfolding(rk_model::specs::Scheduling::Helping::helped_in))]
fn helped(chains: &Chains, cpus: &Assigned, cpu: u8) -> Option<ThreadIx>
    ensures { result ≡ helped_in (scene_in chains.now cpus.now) cpu }
{
    match offered(chains, cpus, cpu) {
        None => None,
        Some(thread) => {
            if is_taken(chains, cpus, thread, cpu) {
                None
            } else {
                Some(thread)
            }
        }
    }
}

/// Writes which processors help a thread: exactly the pairs of a processor and the thread that it
/// helps, where the threads stand in these chains and the processors have these threads.
pub fn host(chains: &Chains, cpus: &Assigned, out: &mut Hosting)
    ensures pairs { out.new ≡ hosts_of (scene_in chains.now cpus.now) cpus.now }
    ensures helped { (p : ℕ) → cpu_in out.new p ≡ helped_in (scene_in chains.now cpus.now) p }
{
    out.clear();
    let seats = cpus.seats();
    for seat in seats {
        if let Some(thread) = helped(chains, cpus, seat.cpu) {
            out.hosts.push(Seat {
                cpu: seat.cpu,
                thread,
            });
        }
    }
}

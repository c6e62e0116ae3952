//! Who owns which semaphore, and what it does to priorities, as it stands with the owners: in the part of
//! an owner's home.

ghost use Rattle.std.specs.Prelude.{◌≡◌, ◌≢◌, ◌≤◌, ◌||◌, ◌==◌, ℕ, None, IfOk, IfSome, IsTrue, true, false, length};
ghost use Rattle.std.specs.List.{slice_index_or};
ghost use Rattle.rk_model.specs.declared.limits.TheConstants.{MOST_OBJECTS};
ghost use Rattle.rk_model.specs.Directives.Objects.{has_begun};
ghost use Rattle.rk_model.specs.Scheduling.Chains.{lends};
ghost use Rattle.rk_model.specs.IndexSets.{is_in};
ghost use Rattle.rk_model.specs.Lists.{has, nth, with_nth};
ghost use Rattle.rk_parts.specs.Held.{HasNoCeiling, RaiseNone, RaisesNone};
ghost use Rattle.rk_parts.specs.HeldChains.{owner_of, waits_on_holder};
ghost use Rattle.rk_parts.specs.Holdings.{holder, holdings, no_holdings, noted_holdings, with_owner, IsNotedIn};
ghost use Rattle.rk_parts.specs.Joined.{thread_lent};
ghost use Rattle.rk_parts.specs.Lent.{NotesOwner};
ghost use Rattle.rk_parts.specs.Threads.{AreApart, AsNoted};

use crate::lent::thread_of;
use crate::parts::ClusterPart;
use rk_model::limits::{MOST_CLUSTERS, MOST_OBJECTS};
use rk_model::{Bounded, IndexSet, Items, NoMemory, Protocol, ThreadIx, Wait};
use std::alloc::Global;
use std::marker::Model;

/// How a semaphore is held by its owner.
#[derive(Clone, Copy, Debug, PartialEq, Eq)]
pub struct Holding {
    /// The thread that owns it.
    pub owner: ThreadIx,
    /// Its protocol.
    pub protocol: Protocol,
    /// Its ceilings in the clusters 0 to 3; 0 where it has none.
    pub ceilings: [u8; MOST_CLUSTERS],
}

/// Indices of semaphores, each of which stands there once.
type Changed = Bounded<u16, MOST_OBJECTS>;

/// Which semaphores the threads of a part own. Contracts see, for each index of a semaphore, how a
/// thread of the part holds it, if one does, and how one did when the part settled last.
#[derive(Debug, Drop)]
pub struct Holdings {
    owners: Items<Option<Holding>>,
    noted: Items<Option<Holding>>,
    /// Those that changed since the part settled; all others are as noted.
    changed: Changed,
    /// Those with ceilings.
    capped: IndexSet,
    /// Whether one that may raise a priority was ever written here.
    raised: bool,
}

impl Model for Holdings {
    ghost use Rattle.rk_parts.specs.Held.{Held, AreHeldKept};

    ghost Value = { Held };

    ghost view = { λ h. record { owners = h.owners; noted = h.noted } };

    ghost invariant = { λ h. AreHeldKept h.changed h.capped h.raised (record { owners = h.owners; noted = h.noted }) };
}

/// What stands at an index among these.
fn held_in(held: &[Option<Holding>], index: u16) -> Option<Holding>
    ensures { result ≡ nth None held.now index }
{
    if index == 0 {
        return None;
    }
    match held.get(index as usize - 1) {
        Some(holding) => *holding,
        None => None,
    }
}

/// Whether those that wait for a semaphore with this protocol lend its owner their priorities.
pub(crate) fn lends(protocol: Protocol) -> bool
    ensures { result ≡ lends protocol }
{
    matches!(protocol, Protocol::Inherit | Protocol::Mrsp)
}

/// Whether one of these ceilings is a priority.
fn are_ceilings(ceilings: &[u8; MOST_CLUSTERS]) -> bool
    ensures { result ≡ false → (c : ℕ) → slice_index_or ceilings.now c 0 ≡ 0 }
{
    *ceilings != [0; MOST_CLUSTERS]
}

/// Whether a semaphore that is held so may raise a priority.
fn may_raise(holding: &Option<Holding>) -> bool
    ensures { result ≡ false → RaisesNone holding.now }
{
    match holding {
        None => false,
        Some(held) => lends(held.protocol) || are_ceilings(&held.ceilings),
    }
}

/// Notes that a semaphore was held so that it may raise a priority, where it is.
fn note_raise(raised: &mut bool, holding: &Option<Holding>)
    ensures kept { raised.new ≡ false → raised.old ≡ false }
    ensures none { raised.new ≡ false → RaisesNone holding.now }
{
    if may_raise(holding) {
        *raised = true;
    }
}

/// Whether a semaphore that is held so has a ceiling.
fn has_ceilings(holding: &Option<Holding>) -> bool
    ensures { result ≡ false → HasNoCeiling holding.now }
{
    match holding {
        None => false,
        Some(held) => are_ceilings(&held.ceilings),
    }
}

/// Notes whether the semaphore of an index, which is held so, has a ceiling.
fn note_ceilings(capped: &mut IndexSet, index: u16, holding: &Option<Holding>)
    requires low { 1 ≤ index }
    requires high { index ≤ MOST_OBJECTS }
    ensures here { is_in capped.new index ≡ false → HasNoCeiling holding.now }
    ensures others { (i : ℕ) → i ≢ index → is_in capped.new i ≡ is_in capped.old i }
{
    if has_ceilings(holding) {
        capped.insert(index as u8);
    } else {
        capped.remove(index as u8);
    }
}

/// Whether a semaphore is held alike.
pub(crate) fn is_same(was: &Option<Holding>, now: &Option<Holding>) -> bool
    ensures { IsTrue result → now.now ≡ was.now }
{
    match was {
        None => now.is_none(),
        Some(was) => match now {
            None => false,
            Some(now) => {
                was.owner == now.owner
                    && was.protocol == now.protocol
                    && was.ceilings == now.ceilings
            }
        },
    }
}

/// Whether an index is among these.
#[tactic(auto, using(rk_model::proofs::BooleanLemmas::any_has))]
fn is_listed(indices: &[u16], index: u16) -> bool
    ensures { result ≡ has indices.now index }
{
    indices.contains(&index)
}

/// Notes that the semaphore of an index changed.
fn note_change(changed: &mut Changed, index: u16)
    requires low { 1 ≤ index }
    requires high { index ≤ MOST_OBJECTS }
    requires apart { AreApart changed.old }
    ensures apart { AreApart changed.new }
    ensures marks { (i : ℕ) → has changed.new i ≡ ((index == i) || has changed.old i) }
{
    if !is_listed(changed.as_slice(), index) {
        changed.push(index);
    }
}

/// Notes how those are held that changed; all others are as noted.
fn copy_each(noted: &mut Items<Option<Holding>>, owners: &[Option<Holding>], changed: &[u16])
    requires owners { length owners.now ≡ MOST_OBJECTS }
    requires size { length noted.old ≡ MOST_OBJECTS }
    requires apart { AreApart changed.now }
    requires others { AsNoted None changed.now noted.old owners.now }
    ensures { noted.new ≡ owners.now }
{
    for index in changed {
        let holding = held_in(owners, *index);
        noted.set(*index as usize - 1, holding);
    }
}

impl Holdings {
    /// Those of threads that own no semaphore.
    ///
    /// # Errors
    ///
    /// `NoMemory` where there is no memory for 64 owners.
    pub fn new(alloc: Global) -> Result<Holdings, NoMemory>
        ensures { IfOk result (λ held. held ≡ no_holdings) }
    {
        let owners = vec![in alloc; None; MOST_OBJECTS]?;
        let noted = vec![in alloc; None; MOST_OBJECTS]?;
        Ok(Holdings {
            owners: Items::from_vec(owners),
            noted: Items::from_vec(noted),
            changed: Bounded::new(alloc)?,
            capped: IndexSet::empty(),
            raised: false,
        })
    }

    /// How a thread of the part holds the semaphore of an index, if one does.
    pub fn holder(&self, index: u16) -> Option<Holding>
        ensures { result ≡ nth None self.now.owners index }
    {
        held_in(self.owners.as_slice(), index)
    }

    /// How one did when the part settled last.
    pub fn noted(&self, index: u16) -> Option<Holding>
        ensures { result ≡ nth None self.now.noted index }
    {
        held_in(self.noted.as_slice(), index)
    }

    /// Whether one changed since the part settled.
    pub fn is_changed(&self) -> bool
        ensures same { result ≡ false → self.now.owners ≡ self.now.noted }
    {
        !self.changed.is_empty()
    }

    /// The indices of those that changed since the part settled.
    pub fn changed(&self) -> &[u16]
        ensures { AsNoted None result.now self.now.noted self.now.owners }
    {
        self.changed.as_slice()
    }

    /// Whether one may raise a priority: one that does was written here once. Else none does.
    pub fn may_raise(&self) -> bool
        ensures { result ≡ false → RaiseNone self.now }
    {
        self.raised
    }

    /// The indices of those with ceilings: all others have none.
    pub fn with_ceilings(&self) -> IndexSet
        ensures { (i : ℕ) → is_in result i ≡ false → HasNoCeiling (nth None self.now.owners i) }
    {
        self.capped
    }

    /// Notes how a thread of the part holds the semaphore of an index, if one does.
    pub fn set(&mut self, index: u16, holding: Option<Holding>)
        requires low { 1 ≤ index }
        requires high { index ≤ MOST_OBJECTS }
        ensures holdings { self.new ≡ record self.old { owners = with_nth self.old.owners index holding } }
        ensures noted { nth None self.new.owners index ≡ holding }
    {
        let before = held_in(self.owners.as_slice(), index);
        if !is_same(&before, &holding) {
            note_raise(&mut self.raised, &holding);
            note_ceilings(&mut self.capped, index, &holding);
            self.owners.set(index as usize - 1, holding);
            note_change(&mut self.changed, index);
        }
    }

    /// Notes how all semaphores are held.
    pub fn note(&mut self)
        ensures { self.new ≡ record self.old { noted = self.old.owners } }
    {
        copy_each(
            &mut self.noted,
            self.owners.as_slice(),
            self.changed.as_slice(),
        );
        self.changed.clear();
    }
}

/// How the semaphore of an index is held, if a thread of the lent parts owns it.
pub fn holder(clusters: &[ClusterPart], index: u16) -> Option<Holding>
    ensures { result ≡ holder (holdings clusters.now) index }
{
    for part in clusters {
        if let Some(holding) = part.holdings.holder(index) {
            return Some(holding);
        }
    }
    None
}

/// How it was held when the parts settled last.
pub fn noted_holder(clusters: &[ClusterPart], index: u16) -> Option<Holding>
    ensures { result ≡ holder (noted_holdings clusters.now) index }
{
    for part in clusters {
        if let Some(holding) = part.holdings.noted(index) {
            return Some(holding);
        }
    }
    None
}

/// The owner, where it is held.
fn owner_of(holding: &Option<Holding>) -> Option<ThreadIx>
    ensures { result ≡ owner_of holding.now }
{
    match holding {
        Some(held) => Some(held.owner),
        None => None,
    }
}

/// The thread on which a thread waits: the owner of the semaphore for which it waits, if there is one.
pub fn waits_on(clusters: &[ClusterPart], thread: ThreadIx) -> Option<ThreadIx>
    ensures { result ≡ waits_on_holder clusters.now thread }
{
    match thread_of(clusters, thread).wait {
        Some(Wait::ForSemaphore(index, _)) => owner_of(&holder(clusters, index)),
        _ => None,
    }
}

/// Notes in a part how a semaphore is held: by its owner, if that lives there.
fn note_in(part: &mut ClusterPart, index: u16, holding: &Option<Holding>)
    requires low { 1 ≤ index }
    requires high { index ≤ MOST_OBJECTS }
    ensures part { part.new ≡ with_owner index holding.now part.old }
    ensures noted { IsNotedIn index holding.now part.new }
{
    let own = match holding {
        Some(held) if part.threads.lives(held.owner) => Some(*held),
        _ => None,
    };
    part.holdings.set(index, own);
}

/// Notes how a semaphore is held, if it has an owner: it stands in the part of the owner's home, and in no
/// other of the lent parts.
pub fn note_owner(clusters: &mut [ClusterPart], index: u16, holding: Option<Holding>)
    requires low { 1 ≤ index }
    requires high { index ≤ MOST_OBJECTS }
    requires lives { IfSome holding (λ h. has_begun (thread_lent clusters.old h.owner).life ≡ true) }
    ensures { NotesOwner clusters.old index holding clusters.new }
{
    for at in 0..clusters.len() {
        note_in(&mut clusters[at], index, &holding);
    }
}

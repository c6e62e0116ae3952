//! The places of the threads in a part, each of which is noted as it stood when the state settled
//! last, and what threads of the part contribute to priorities in its cluster.
//!
//! Whoever writes a thread, or changes what is contributed to its priority, marks it, so that settling
//! looks at the marked threads alone.

ghost use Rattle.std.specs.Prelude.{◌≡◌, ◌≢◌, ◌<◌, ◌||◌, ◌==◌, ℕ, length, is_some, false, IfOk, IsTrue};
ghost use Rattle.rk_model.specs.declared.limits.TheConstants.{MOST_CLUSTERS, MOST_OBJECTS};
ghost use Rattle.rk_model.specs.IndexSets.{is_in};
ghost use Rattle.rk_model.specs.Lists.{has, nth, with_nth};
ghost use Rattle.rk_model.specs.State.{no_thread};
ghost use Rattle.rk_model.specs.Directives.Objects.{has_begun};
ghost use Rattle.rk_model.specs.Scheduling.Priorities.{is_spinning, no_standing, nth_standing, or_least_urgent};
ghost use Rattle.rk_agg.specs.Shares.{found, least_source, with_found};
ghost use Rattle.rk_parts.specs.Threads.{alone, bearing, bearing_at, bearings_by, no_bearing, no_threads, standing_at, standings_by, unlent, with_alone, AreApart, AsNoted, LendAlone, NoneSpins, StandAsNoted};

use crate::bearing::{Bearing, bearing_of, is_ready, is_spinning, no_bearing};
use crate::standing::not_standing;
use rk_agg::Aggregates;
use rk_model::limits::MOST_OBJECTS;
use rk_model::{Bounded, IndexSet, Items, Life, NoMemory, Prio, Standing, Thread, ThreadIx, Wait};
use std::alloc::Global;
use std::marker::Model;

/// Threads, each of which stands there once.
type Marked = Bounded<ThreadIx, MOST_OBJECTS>;

/// The places of the 64 threads. Contracts see the threads, how each stood and what each bore when the
/// state settled last, and what is contributed.
#[derive(Debug, Drop)]
pub struct Threads {
    places: Items<Thread>,
    stood: Items<Standing>,
    borne: Items<Bearing>,
    shares: Aggregates,
    /// Those that were written, or to whose priority another was contributed, since the state settled;
    /// all others stand as they stood.
    marked: Marked,
    /// Whether a thread that spins was ever put here.
    spun: bool,
}

impl Model for Threads {
    ghost use Rattle.std.specs.Prelude.{◌≡◌, length};
    ghost use Rattle.rk_parts.specs.Threads.{Threads as ThreadsView, AreKept};

    ghost Value = { ThreadsView };

    ghost view = { λ t. record { places = t.places; stood = t.stood; borne = t.borne; shares = t.shares } };

    ghost invariant = { λ t. AreKept t.marked t.spun (record { places = t.places; stood = t.stood; borne = t.borne; shares = t.shares }) };
}

/// The thread of an index among these, or what stands where there is none.
fn thread_in(places: &[Thread], thread: ThreadIx) -> Thread
    ensures { result ≡ nth no_thread places.now thread }
{
    match places.get(thread.at() as usize - 1) {
        Some(found) => *found,
        None => Thread::absent(),
    }
}

/// How the thread of an index stood, by these standings.
fn stood_in(stood: &[Standing], thread: ThreadIx) -> Standing
    ensures { result ≡ nth_standing stood.now thread }
{
    match stood.get(thread.at() as usize - 1) {
        Some(found) => *found,
        None => not_standing(),
    }
}

/// What the thread of an index bore, by these notes.
fn borne_in(borne: &[Bearing], thread: ThreadIx) -> Bearing
    ensures { result ≡ nth no_bearing borne.now thread }
{
    match borne.get(thread.at() as usize - 1) {
        Some(found) => *found,
        None => no_bearing(),
    }
}

/// The priority of a thread in a cluster, by these contributions; the least urgent one where it has none.
#[tactic(auto, unfolding(rk_agg::specs::Shares::least_source))]
fn prio_in(shares: &Aggregates, thread: ThreadIx, cluster: u8) -> Prio
    ensures { result ≡ or_least_urgent (least_source (found shares.now thread cluster)) }
{
    match shares.least(thread, cluster) {
        Some(prio) => prio,
        None => Prio::least_urgent(),
    }
}

/// How the thread of an index stands, by these contributions.
fn standing_in(places: &[Thread], shares: &Aggregates, thread: ThreadIx) -> Standing
    ensures { result ≡ standing_at shares.now places.now thread }
{
    let found = thread_in(places, thread);
    Standing {
        cluster: if is_ready(bearing_of(found)) {
            Some(found.home)
        } else {
            None
        },
        prio: if matches!(found.life, Life::Absent) {
            Prio::least_urgent()
        } else {
            prio_in(shares, thread, found.home)
        },
    }
}

/// Whether a thread is marked.
#[tactic(auto, using(rk_model::proofs::BooleanLemmas::any_has))]
fn is_marked(marked: &[ThreadIx], thread: ThreadIx) -> bool
    ensures { result ≡ has marked.now thread }
{
    marked.contains(&thread)
}

/// Marks a thread.
fn mark(marked: &mut Marked, thread: ThreadIx)
    requires { AreApart marked.old }
    ensures apart { AreApart marked.new }
    ensures marks { (t : ℕ) → has marked.new t ≡ ((thread == t) || has marked.old t) }
{
    // Reading the index tells its range.
    let _index = thread.at();
    if !is_marked(marked.as_slice(), thread) {
        marked.push(thread);
    }
}

/// Notes how each of these threads stands; all others stand as is noted.
fn note_stood(
    stood: &mut Items<Standing>,
    places: &[Thread],
    shares: &Aggregates,
    marked: &[ThreadIx],
)
    requires places { length places.now ≡ MOST_OBJECTS }
    requires size { length stood.old ≡ MOST_OBJECTS }
    requires others { AsNoted no_standing marked.now stood.old (standings_by shares.now places.now) }
    ensures { stood.new ≡ standings_by shares.now places.now }
{
    for thread in marked {
        stood.set(
            thread.at() as usize - 1,
            standing_in(places, shares, *thread),
        );
    }
}

/// Notes what each of these threads bears; all others bear what is noted.
fn note_borne(borne: &mut Items<Bearing>, places: &[Thread], marked: &[ThreadIx])
    requires places { length places.now ≡ MOST_OBJECTS }
    requires size { length borne.old ≡ MOST_OBJECTS }
    requires others { AsNoted no_bearing marked.now borne.old (bearings_by places.now) }
    ensures { borne.new ≡ bearings_by places.now }
{
    for thread in marked {
        borne.set(
            thread.at() as usize - 1,
            bearing_of(thread_in(places, *thread)),
        );
    }
}

/// Whether two priorities are the same, of which each may be none.
fn are_same(prio: &Option<Prio>, other: &Option<Prio>) -> bool
    ensures { IsTrue result → prio.now ≡ other.now }
{
    match prio {
        None => other.is_none(),
        Some(prio) => match other {
            None => false,
            Some(other) => prio.level() == other.level(),
        },
    }
}

/// Lets a thread contribute a priority to another in a cluster, or nothing, whatever it contributed.
fn set_share(
    shares: &mut Aggregates,
    thread: ThreadIx,
    cluster: u8,
    source: ThreadIx,
    prio: &Option<Prio>,
)
    requires { cluster < MOST_CLUSTERS }
    ensures { found shares.new ≡ with_found thread cluster source prio.now (found shares.old) }
{
    match prio {
        None => {
            if shares.share(thread, cluster, source).is_some() {
                shares.remove(thread, cluster, source);
            }
        }
        Some(prio) => {
            if shares.share(thread, cluster, source).is_some() {
                shares.change(thread, cluster, source, *prio);
            } else {
                shares.add(thread, cluster, source, *prio);
            }
        }
    }
}

/// The same, where it differs.
fn renew_share(
    shares: &mut Aggregates,
    thread: ThreadIx,
    cluster: u8,
    source: ThreadIx,
    prio: &Option<Prio>,
)
    requires { cluster < MOST_CLUSTERS }
    ensures { found shares.new ≡ with_found thread cluster source prio.now (found shares.old) }
{
    if !are_same(&shares.share(thread, cluster, source), prio) {
        set_share(shares, thread, cluster, source, prio);
    }
}

/// What the thread of an index contributes to itself in a cluster, where nobody lends.
fn alone_in(places: &[Thread], thread: ThreadIx, cluster: u8) -> Option<Prio>
    ensures { result ≡ alone (bearing_at places.now thread) cluster }
{
    match places.get(thread.at() as usize - 1) {
        Some(found) => {
            if !matches!(found.life, Life::Absent) && found.home == cluster {
                Some(found.base)
            } else {
                None
            }
        }
        None => None,
    }
}

/// Lets each of these threads contribute to itself in a cluster what it does where nobody lends.
fn lend_each(shares: &mut Aggregates, places: &[Thread], marked: &[ThreadIx], cluster: u8)
    requires { cluster < MOST_CLUSTERS }
    ensures { found shares.new ≡ with_alone marked.now (bearing_at places.now) cluster (found shares.old) }
{
    for thread in marked {
        let prio = alone_in(places, *thread, cluster);
        renew_share(shares, *thread, cluster, *thread, &prio);
    }
}

/// Notes that a thread spun, where one that waits for this does.
fn note_spinner(spun: &mut bool, wait: Option<Wait>)
    ensures { spun.new ≡ (spun.old || is_spinning wait) }
{
    if is_spinning(wait) {
        *spun = true;
    }
}

impl Threads {
    /// Places without threads, and no contributions.
    ///
    /// # Errors
    ///
    /// `NoMemory` where there is no memory for them.
    pub fn new(alloc: Global) -> Result<Threads, NoMemory>
        ensures { IfOk result (λ threads. threads ≡ no_threads) }
    {
        let places = vec![in alloc; Thread::absent(); MOST_OBJECTS]?;
        let stood = vec![in alloc; not_standing(); MOST_OBJECTS]?;
        let borne = vec![in alloc; no_bearing(); MOST_OBJECTS]?;
        Ok(Threads {
            places: Items::from_vec(places),
            stood: Items::from_vec(stood),
            borne: Items::from_vec(borne),
            shares: Aggregates::new(alloc)?,
            marked: Bounded::new(alloc)?,
            spun: false,
        })
    }

    /// The thread of an index, or what stands where there is none.
    pub fn get(&self, thread: ThreadIx) -> Thread
        ensures { result ≡ nth no_thread self.now.places thread }
    {
        thread_in(self.places.as_slice(), thread)
    }

    /// Whether a thread lives here.
    pub fn lives(&self, thread: ThreadIx) -> bool
        ensures { result ≡ has_begun (nth no_thread self.now.places thread).life }
    {
        match self.places.get(thread.at() as usize - 1) {
            Some(found) => !matches!(found.life, Life::Absent),
            None => false,
        }
    }

    /// Whether a thread may spin here: one that did was put here once. Else none spins.
    pub fn may_spin(&self) -> bool
        ensures { NoneSpins result self.now.places }
    {
        self.spun
    }

    /// How a thread stood when the state settled last.
    pub fn stood(&self, thread: ThreadIx) -> Standing
        ensures { result ≡ nth_standing self.now.stood thread }
    {
        stood_in(self.stood.as_slice(), thread)
    }

    /// How a thread stands, by what is contributed to its priority.
    pub fn standing(&self, thread: ThreadIx) -> Standing
        ensures { result ≡ standing_at self.now.shares self.now.places thread }
    {
        standing_in(self.places.as_slice(), &self.shares, thread)
    }

    /// The priority of a thread in a cluster, by what is contributed to it here.
    pub fn prio(&self, thread: ThreadIx, cluster: u8) -> Option<Prio>
        ensures { result ≡ least_source (found self.now.shares thread cluster) }
    {
        self.shares.least(thread, cluster)
    }

    /// Who contributes here to a thread in a cluster.
    pub fn sources(&self, thread: ThreadIx, cluster: u8) -> IndexSet
        ensures { (u : ℕ) → is_in result u ≡ is_some (found self.now.shares thread cluster u) }
    {
        self.shares.sources(thread, cluster)
    }

    /// To whom a thread contributes here in a cluster.
    pub fn targets(&self, source: ThreadIx, cluster: u8) -> IndexSet
        ensures { (t : ℕ) → is_in result t ≡ is_some (found self.now.shares t cluster source) }
    {
        self.shares.targets(source, cluster)
    }

    /// Puts another thread at an index.
    pub fn put(&mut self, index: ThreadIx, thread: Thread)
        ensures { self.new ≡ record self.old { places = with_nth self.old.places index thread } }
    {
        self.places.set(index.at() as usize - 1, thread);
        // Read where it was put: a read of the argument would cost a copy of all of it.
        let put = thread_in(self.places.as_slice(), index);
        note_spinner(&mut self.spun, put.wait);
        mark(&mut self.marked, index);
    }

    /// Puts a thread that bears what the one before it bore at an index.
    pub fn renew(&mut self, index: ThreadIx, thread: Thread)
        requires { bearing thread ≡ bearing (nth no_thread self.old.places index) }
        ensures { self.new ≡ record self.old { places = with_nth self.old.places index thread } }
    {
        self.places.set(index.at() as usize - 1, thread);
    }

    /// Lets a thread contribute a priority to another in a cluster, or nothing, whatever it contributed.
    pub fn lend(&mut self, thread: ThreadIx, cluster: u8, source: ThreadIx, prio: &Option<Prio>)
        requires { cluster < MOST_CLUSTERS }
        ensures rest { unlent self.new ≡ unlent self.old }
        ensures shares { found self.new.shares ≡ with_found thread cluster source prio.now (found self.old.shares) }
    {
        if !are_same(&self.shares.share(thread, cluster, source), prio) {
            set_share(&mut self.shares, thread, cluster, source, prio);
            mark(&mut self.marked, thread);
        }
    }

    /// Lets the marked threads contribute in a cluster as they are, where nobody lends: each to itself alone.
    pub fn lend_alone(&mut self, cluster: u8)
        requires cluster { cluster < MOST_CLUSTERS }
        requires alone { LendAlone (nth no_bearing self.old.borne) cluster (found self.old.shares) }
        ensures rest { unlent self.new ≡ unlent self.old }
        ensures alone { LendAlone (bearing_at self.old.places) cluster (found self.new.shares) }
        ensures elsewhere { (t d u : ℕ) → d ≢ cluster → found self.new.shares t d u ≡ found self.old.shares t d u }
    {
        lend_each(
            &mut self.shares,
            self.places.as_slice(),
            self.marked.as_slice(),
            cluster,
        );
    }

    /// The threads that were marked since the state settled. All others stand as they stood, and bear
    /// what they bore.
    pub fn marked(&self) -> &[ThreadIx]
        ensures others { StandAsNoted result.now self.now }
        ensures places { length self.now.places ≡ MOST_OBJECTS }
        ensures stood { length self.now.stood ≡ MOST_OBJECTS }
        ensures borne { length self.now.borne ≡ MOST_OBJECTS }
    {
        self.marked.as_slice()
    }

    /// Notes how all threads stand, and what they bear.
    pub fn note(&mut self)
        ensures { self.new ≡ record self.old { stood = standings_by self.old.shares self.old.places; borne = bearings_by self.old.places } }
    {
        note_stood(
            &mut self.stood,
            self.places.as_slice(),
            &self.shares,
            self.marked.as_slice(),
        );
        note_borne(
            &mut self.borne,
            self.places.as_slice(),
            self.marked.as_slice(),
        );
        self.marked.clear();
    }
}

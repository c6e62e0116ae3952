//! What threads contribute to each other's priorities, made anew where a change has touched it.
//!
//! A thread contributes its own priority, in its home, to each thread that its chain reaches. What it
//! contributes can change only where a thread of the chain that it had was touched: so the contributions
//! themselves tell which threads have to contribute anew.

ghost use Rattle.std.specs.Prelude.{◌≡◌, ◌≢◌, ◌<◌, ◌≤◌, ◌&&◌, ◌||◌, ◌==◌, ◌⊎◌, ℕ, List, Bool, Some, None, IsTrue, false, true, length, map, if◌then◌else◌};
ghost use Rattle.rk_model.specs.declared.limits.TheConstants.{MOST_CLUSTERS, MOST_OBJECTS};
ghost use Rattle.rk_model.specs.declared.state.Wait.TheVariants.{ForSemaphore};
ghost use Rattle.rk_model.specs.IndexSets.{is_in};
ghost use Rattle.rk_model.specs.Lists.{nth};
ghost use Rattle.rk_model.specs.Queues.{lesser};
ghost use Rattle.rk_model.specs.Scheduling.Priorities.{if_some};
ghost use Rattle.rk_agg.specs.Shares.{found};
ghost use Rattle.rk_parts.specs.Contributions.{bears, bore, borrower_by, borrower_of, ceiling_by, contributed, flagged, home_of, is_home, least_ceiling, own_by, reach_to, reached_by, step_by, IsApart, IsOne};
ghost use Rattle.rk_parts.specs.Contributing.{bears_at, bore_at, flat, waits_for, AreAlone, AreAsElsewhere, AreHomes, AsElsewhere, BearsAsBorne, IsFresh, IsHeldAsNoted, Lives};
ghost use Rattle.rk_parts.specs.Holdings.{holder, holdings, noted_holdings};
ghost use Rattle.rk_parts.specs.Held.{HasNoCeiling, RaisesNone};
ghost use Rattle.rk_parts.specs.Noted.{part_at, share_at, AreLent, NoneElsewhere};
ghost use Rattle.rk_parts.specs.Threads.{unlent};

use crate::holdings::{Holding, holder, is_same, lends, noted_holder};
use crate::lent::thread_of;
use crate::parts::ClusterPart;
use crate::threads::Threads;
use rk_agg::lesser_of;
use rk_model::limits::MOST_OBJECTS;
use rk_model::{IndexSet, Life, Prio, ThreadIx, Wait};

// ---- flags

/// Raises the flag of a thread.
fn raise(flags: &mut IndexSet, thread: ThreadIx)
    ensures { (u : ℕ) → flagged flags.new u ≡ ((thread == u) || flagged flags.old u) }
{
    flags.insert(thread.at());
}

/// Whether the flag of a thread is raised.
fn is_raised(flags: &IndexSet, thread: ThreadIx) -> bool
    ensures { result ≡ flagged flags.now thread }
{
    flags.contains(thread.at())
}

// ---- which threads were touched

/// Raises the flag of each thread that was marked in a part.
fn touch_in(part: &ClusterPart, touched: &mut IndexSet)
    ensures kept { (t : ℕ) → flagged touched.new t ≡ false → flagged touched.old t ≡ false }
    ensures rest { (t : ℕ) → flagged touched.new t ≡ false → BearsAsBorne part.now t }
{
    let marked = part.threads.marked();
    for thread in marked {
        raise(touched, *thread);
    }
}

/// Raises the flag of each thread that was marked.
fn touch_marked(clusters: &[ClusterPart], touched: &mut IndexSet)
    ensures kept { (t : ℕ) → flagged touched.new t ≡ false → flagged touched.old t ≡ false }
    ensures rest { (t : ℕ) → flagged touched.new t ≡ false → bears clusters.now t ≡ bore clusters.now t }
{
    for at in 0..clusters.len() {
        touch_in(&clusters[at], touched);
    }
}

/// The thread to which those lend their priorities that wait for a semaphore which is held so.
fn borrower_of(holding: &Option<Holding>) -> Option<ThreadIx>
    ensures { result ≡ borrower_of holding.now }
{
    match holding {
        None => None,
        Some(held) => {
            if lends(held.protocol) {
                Some(held.owner)
            } else {
                None
            }
        }
    }
}

/// Raises the flag of a semaphore's owner, if it has one.
fn touch_owner(holding: &Option<Holding>, touched: &mut IndexSet)
    ensures kept { (t : ℕ) → flagged touched.new t ≡ false → flagged touched.old t ≡ false }
    ensures owner { (t c : ℕ) → flagged touched.new t ≡ false → ceiling_by t c holding.now ≡ None }
{
    match holding {
        None => {}
        Some(held) => raise(touched, held.owner),
    }
}

/// Whether a thread waits for a semaphore.
fn waits_for(clusters: &[ClusterPart], thread: ThreadIx, index: u16) -> bool
    ensures { result ≡ waits_for (bears clusters.now thread).wait index }
{
    match thread_of(clusters, thread).wait {
        Some(Wait::ForSemaphore(awaited, _)) => awaited == index,
        _ => false,
    }
}

/// Raises the flag of each thread that waits for a semaphore.
fn touch_waiters(clusters: &[ClusterPart], index: u16, touched: &mut IndexSet)
    ensures kept { (t : ℕ) → flagged touched.new t ≡ false → flagged touched.old t ≡ false }
    ensures waiters { (t : ℕ) → flagged touched.new t ≡ false → waits_for (bears clusters.now t).wait index ≡ false }
{
    for at in 0..MOST_OBJECTS {
        let thread = ThreadIx::new(at as u8 + 1);
        if waits_for(clusters, thread, index) {
            raise(touched, thread);
        }
    }
}

/// Whether those that wait for a semaphore lend, or lent, their priorities to its owner.
fn has_borrower(was: &Option<Holding>, now: &Option<Holding>) -> bool
    ensures { result ≡ false → borrower_of now.now ≡ borrower_of was.now }
{
    borrower_of(was).is_some() || borrower_of(now).is_some()
}

/// Raises the flags of those whose own priority, or whose step in a chain, may have changed with how a
/// semaphore is held: its owners of before and now, and where it lends or lent those that wait for it.
fn touch_owners(
    clusters: &[ClusterPart],
    index: u16,
    was: &Option<Holding>,
    now: &Option<Holding>,
    touched: &mut IndexSet,
)
    ensures kept { (t : ℕ) → flagged touched.new t ≡ false → flagged touched.old t ≡ false }
    ensures apart { (t : ℕ) → flagged touched.new t ≡ false → IsApart was.now now.now index t (bears clusters.now t).wait }
{
    touch_owner(was, touched);
    touch_owner(now, touched);
    if has_borrower(was, now) {
        touch_waiters(clusters, index, touched);
    }
}

/// The same, where it is held otherwise than before.
fn touch_change(clusters: &[ClusterPart], index: u16, touched: &mut IndexSet)
    ensures kept { (t : ℕ) → flagged touched.new t ≡ false → flagged touched.old t ≡ false }
    ensures apart { (t : ℕ) → flagged touched.new t ≡ false → IsApart (holder (noted_holdings clusters.now) index) (holder (holdings clusters.now) index) index t (bears clusters.now t).wait }
{
    let was = noted_holder(clusters, index);
    let now = holder(clusters, index);
    if !is_same(&was, &now) {
        touch_owners(clusters, index, &was, &now, touched);
    }
}

/// Raises the flags of those whom the holdings touch that changed in a part.
fn touch_changed(clusters: &[ClusterPart], at: usize, touched: &mut IndexSet)
    requires within { at < length clusters.now }
    ensures kept { (t : ℕ) → flagged touched.new t ≡ false → flagged touched.old t ≡ false }
    ensures apart { (t : ℕ) → flagged touched.new t ≡ false → (i : ℕ) → IsApart (holder (noted_holdings clusters.now) i) (holder (holdings clusters.now) i) i t (bears clusters.now t).wait ⊎ IsHeldAsNoted (part_at clusters.now at) i }
{
    let changed = clusters[at].holdings.changed();
    for index in changed {
        touch_change(clusters, *index, touched);
    }
}

/// Raises the flags of those whom changed holdings touch.
fn touch_held(clusters: &[ClusterPart], touched: &mut IndexSet)
    ensures kept { (t : ℕ) → flagged touched.new t ≡ false → flagged touched.old t ≡ false }
    ensures apart { (t : ℕ) → flagged touched.new t ≡ false → (i : ℕ) → IsApart (holder (noted_holdings clusters.now) i) (holder (holdings clusters.now) i) i t (bears clusters.now t).wait }
{
    for at in 0..clusters.len() {
        touch_changed(clusters, at, touched);
    }
}

// ---- who has to contribute anew

/// Raises the flag of each thread that contributes to another.
fn flag_sources(clusters: &[ClusterPart], thread: ThreadIx, stale: &mut IndexSet)
    ensures kept { (u : ℕ) → flagged stale.new u ≡ false → flagged stale.old u ≡ false }
    ensures all { (at u : ℕ) → at < length clusters.now → flagged stale.new u ≡ false → share_at clusters.now at thread u ≡ None }
{
    for at in 0..clusters.len() {
        let number = clusters[at].lined.number();
        stale.insert_all(clusters[at].threads.sources(thread, number));
    }
}

/// Raises the flag of each touched thread, and of each that contributes to a touched one.
fn find_stale(clusters: &[ClusterPart], touched: &IndexSet, stale: &mut IndexSet)
    ensures { (u : ℕ) → flagged stale.new u ≡ false → IsFresh touched.now clusters.now u }
{
    let mut rest = *touched;
    'finding: while let Some(at) = rest.take_least() {
        let thread = ThreadIx::new(at);
        raise(stale, thread);
        flag_sources(clusters, thread, stale);
    }
}

// ---- what a thread contributes

/// The thread to which a thread lends its priority.
fn lends_to(clusters: &[ClusterPart], thread: ThreadIx) -> Option<ThreadIx>
    ensures { result ≡ step_by (bears clusters.now) (holder (holdings clusters.now)) thread }
{
    match thread_of(clusters, thread).wait {
        Some(Wait::ForSemaphore(index, _)) => borrower_of(&holder(clusters, index)),
        _ => None,
    }
}

/// Raises the flag of each thread that the chain of a thread reaches, where no flag is raised.
fn flag_chain(clusters: &[ClusterPart], from: ThreadIx, flags: &mut IndexSet)
    requires { (t : ℕ) → flagged flags.old t ≡ false }
    ensures { (t : ℕ) → flagged flags.new t ≡ reached_by (step_by (bears clusters.now) (holder (holdings clusters.now))) from t }
{
    let mut at = from;
    for _step in 0..MOST_OBJECTS {
        raise(flags, at);
        match lends_to(clusters, at) {
            None => return,
            Some(next) => at = next,
        }
    }
}

/// The priority of a level, if it is one.
fn prio_of(level: u8) -> Option<Prio>
    ensures { result ≡ if_some level }
{
    if level == 0 {
        None
    } else {
        Some(Prio::new(level))
    }
}

/// The ceiling in a cluster to which a semaphore that is held so raises a thread.
fn ceiling_of(holding: &Option<Holding>, thread: ThreadIx, cluster: u8) -> Option<Prio>
    ensures { result ≡ ceiling_by thread cluster holding.now }
{
    match holding {
        None => None,
        Some(held) => {
            if held.owner == thread {
                match held.ceilings.get(cluster as usize) {
                    Some(level) => prio_of(*level),
                    None => None,
                }
            } else {
                None
            }
        }
    }
}

/// The semaphores with ceilings that threads of the parts own.
fn with_ceilings(clusters: &[ClusterPart]) -> IndexSet
    ensures { (i : ℕ) → is_in result i ≡ false → HasNoCeiling (holder (holdings clusters.now) i) }
{
    let mut capped = IndexSet::empty();
    for part in clusters {
        capped.insert_all(part.holdings.with_ceilings());
    }
    capped
}

/// The least of the ceilings in a cluster of the semaphores that a thread owns.
fn least_ceiling(clusters: &[ClusterPart], thread: ThreadIx, cluster: u8) -> Option<Prio>
    ensures { result ≡ least_ceiling (holder (holdings clusters.now)) thread cluster }
{
    let mut rest = with_ceilings(clusters);
    let mut best = None;
    'comparing: while let Some(at) = rest.take_least() {
        let holding = holder(clusters, u16::from(at));
        best = lesser_of(best, ceiling_of(&holding, thread, cluster));
    }
    best
}

/// A thread's own priority.
fn own(clusters: &[ClusterPart], thread: ThreadIx) -> Prio
    ensures { result ≡ own_by (bears clusters.now) (holder (holdings clusters.now)) thread }
{
    let found = thread_of(clusters, thread);
    match least_ceiling(clusters, thread, found.home) {
        None => found.base,
        Some(ceiling) => {
            if found.base.level() <= ceiling.level() {
                found.base
            } else {
                ceiling
            }
        }
    }
}

/// The home of a thread, if it lives.
fn home_of(clusters: &[ClusterPart], thread: ThreadIx) -> Option<u8>
    ensures { result ≡ home_of (bears clusters.now thread) }
{
    let found = thread_of(clusters, thread);
    if matches!(found.life, Life::Absent) {
        None
    } else {
        Some(found.home)
    }
}

/// Whether this is the home, if there is one.
fn is_home(cluster: u8, home: Option<u8>) -> bool
    ensures { result ≡ is_home cluster home }
{
    match home {
        None => false,
        Some(found) => found == cluster,
    }
}

/// What a thread contributes to another in a cluster, with this home, own priority and flags of those that
/// its chain reaches.
fn reach_to(
    home: Option<u8>,
    own: Prio,
    flags: &IndexSet,
    cluster: u8,
    thread: ThreadIx,
) -> Option<Prio>
    ensures { result ≡ reach_to home own flags.now cluster thread }
{
    if is_home(cluster, home) && is_raised(flags, thread) {
        Some(own)
    } else {
        None
    }
}

/// To whom a thread contributes in a cluster, or is to contribute, with this home and flags of those that its
/// chain reaches.
fn old_and_new(
    threads: &Threads,
    cluster: u8,
    source: ThreadIx,
    home: Option<u8>,
    flags: &IndexSet,
) -> IndexSet
    ensures { (t : ℕ) → is_in result t ≡ false → (found threads.now.shares t cluster source ≡ None) × ((is_home cluster home && flagged flags.now t) ≡ false) }
{
    let mut all = threads.targets(source, cluster);
    if is_home(cluster, home) {
        all.insert_all(*flags);
        return all;
    }
    all
}

/// Lets a thread contribute this in a cluster, whatever it contributed.
fn relend_each(
    threads: &mut Threads,
    cluster: u8,
    source: ThreadIx,
    home: Option<u8>,
    own: Prio,
    flags: &IndexSet,
)
    requires { cluster < MOST_CLUSTERS }
    ensures rest { unlent threads.new ≡ unlent threads.old }
    ensures shares { (t w : ℕ) → IsOne t → found threads.new.shares t cluster w ≡ (if w == source then reach_to home own flags.now cluster t else found threads.old.shares t cluster w) }
    ensures elsewhere { (t d w : ℕ) → d ≢ cluster → found threads.new.shares t d w ≡ found threads.old.shares t d w }
{
    let mut rest = old_and_new(threads, cluster, source, home, flags);
    'lending: while let Some(at) = rest.take_least() {
        let thread = ThreadIx::new(at);
        let prio = reach_to(home, own, flags, cluster, thread);
        threads.lend(thread, cluster, source, &prio);
    }
}

/// Lets a thread contribute this in a part, whatever it contributed.
fn relend_in(
    part: &mut ClusterPart,
    source: ThreadIx,
    home: Option<u8>,
    own: Prio,
    flags: &IndexSet,
)
    ensures flat { flat part.new ≡ flat part.old }
    ensures shares { (t w : ℕ) → IsOne t → found part.new.threads.shares t part.old.lined.number w ≡ (if w == source then reach_to home own flags.now part.old.lined.number t else found part.old.threads.shares t part.old.lined.number w) }
    ensures elsewhere { AsElsewhere part.old part.new }
{
    let number = part.lined.number();
    relend_each(&mut part.threads, number, source, home, own, flags);
}

/// Lets a thread contribute this, whatever it contributed.
fn relend(
    clusters: &mut [ClusterPart],
    source: ThreadIx,
    home: Option<u8>,
    own: Prio,
    flags: &IndexSet,
)
    ensures flat { map flat clusters.new ≡ map flat clusters.old }
    ensures shares { (at t w : ℕ) → at < length clusters.old → IsOne t → share_at clusters.new at t w ≡ (if w == source then reach_to home own flags.now (part_at clusters.old at).lined.number t else share_at clusters.old at t w) }
    ensures elsewhere { AreAsElsewhere clusters.old clusters.new }
{
    for at in 0..clusters.len() {
        relend_in(&mut clusters[at], source, home, own, flags);
    }
}

/// Lets a thread contribute anew, as the threads are.
fn remake(clusters: &mut [ClusterPart], source: ThreadIx)
    ensures flat { map flat clusters.new ≡ map flat clusters.old }
    ensures shares { (at t w : ℕ) → at < length clusters.old → IsOne t → share_at clusters.new at t w ≡ (if w == source then contributed (bears clusters.old) (holder (holdings clusters.old)) t (part_at clusters.old at).lined.number source else share_at clusters.old at t w) }
    ensures elsewhere { AreAsElsewhere clusters.old clusters.new }
{
    let mut flags = IndexSet::empty();
    flag_chain(clusters, source, &mut flags);
    let home = home_of(clusters, source);
    let own = own(clusters, source);
    relend(clusters, source, home, own, &flags);
}

/// Lets these threads contribute anew.
fn remake_each(clusters: &mut [ClusterPart], stale: &IndexSet)
    requires same { (at t u : ℕ) → at < length clusters.old → IsOne t → IsOne u → flagged stale.now u ≡ false → share_at clusters.old at t u ≡ contributed (bears clusters.old) (holder (holdings clusters.old)) t (part_at clusters.old at).lined.number u }
    requires elsewhere { NoneElsewhere clusters.old }
    ensures flat { map flat clusters.new ≡ map flat clusters.old }
    ensures shares { AreLent (bears clusters.old) (holder (holdings clusters.old)) clusters.new }
{
    let mut rest = *stale;
    'remaking: while let Some(at) = rest.take_least() {
        remake(clusters, ThreadIx::new(at));
    }
}

// ---- where nobody lends

/// Whether a holding of one of the parts may raise a priority.
fn may_raise(clusters: &[ClusterPart]) -> bool
    ensures { result ≡ false → (i : ℕ) → RaisesNone (holder (holdings clusters.now) i) × RaisesNone (holder (noted_holdings clusters.now) i) }
{
    for part in clusters {
        if part.holdings.may_raise() {
            return true;
        }
    }
    false
}

/// Lets the marked threads of a part contribute as they are, where nobody lends.
fn contribute_in(part: &mut ClusterPart)
    requires { AreAlone (bore_at part.old) part.old }
    ensures flat { flat part.new ≡ flat part.old }
    ensures alone { AreAlone (bears_at part.old) part.new }
    ensures elsewhere { AsElsewhere part.old part.new }
{
    let number = part.lined.number();
    part.threads.lend_alone(number);
}

/// Lets the marked threads contribute as they are, where nobody lends: each its base priority to itself,
/// in its home. All others contribute as they did.
fn contribute_alone(clusters: &mut [ClusterPart])
    requires raise { (i : ℕ) → RaisesNone (holder (holdings clusters.old) i) × RaisesNone (holder (noted_holdings clusters.old) i) }
    requires lent { AreLent (bore clusters.old) (holder (noted_holdings clusters.old)) clusters.old }
    requires homes { AreHomes clusters.old }
    ensures flat { map flat clusters.new ≡ map flat clusters.old }
    ensures lent { AreLent (bears clusters.old) (holder (holdings clusters.old)) clusters.new }
{
    for at in 0..clusters.len() {
        contribute_in(&mut clusters[at]);
    }
}

/// Lets those contribute anew whom the change may have touched.
#[cold]
#[inline(never)]
fn contribute_anew(clusters: &mut [ClusterPart])
    requires lent { AreLent (bore clusters.old) (holder (noted_holdings clusters.old)) clusters.old }
    requires lives { Lives clusters.old }
    ensures flat { map flat clusters.new ≡ map flat clusters.old }
    ensures lent { AreLent (bears clusters.old) (holder (holdings clusters.old)) clusters.new }
{
    let mut touched = IndexSet::empty();
    touch_marked(clusters, &mut touched);
    touch_held(clusters, &mut touched);
    let mut stale = IndexSet::empty();
    find_stale(clusters, &touched, &mut stale);
    remake_each(clusters, &stale);
}

/// Makes contributions anew after a change, where those from before it are as the threads bore and
/// held semaphores then.
pub fn contribute(clusters: &mut [ClusterPart])
    requires lent { AreLent (bore clusters.old) (holder (noted_holdings clusters.old)) clusters.old }
    requires lives { Lives clusters.old }
    requires homes { AreHomes clusters.old }
    ensures flat { map flat clusters.new ≡ map flat clusters.old }
    ensures lent { AreLent (bears clusters.old) (holder (holdings clusters.old)) clusters.new }
{
    if may_raise(clusters) {
        contribute_anew(clusters);
    } else {
        contribute_alone(clusters);
    }
}

ghost use Rattle.std.specs.Prelude.{◌≡◌, ◌≢◌, ◌<◌, ◌+◌, ◌==◌, IfOk, Some, None, is_some, true, false, length, ℕ, if◌then◌else◌};
ghost use Rattle.std.specs.List.{slice_index_or};
ghost use Rattle.rk_model.specs.IndexSets.{is_in};
ghost use Rattle.rk_model.specs.declared.limits.TheConstants.{MOST_CLUSTERS, MOST_OBJECTS};
ghost use Rattle.rk_agg.specs.Shares.{cell_of, found, is_one, is_row, is_same_prio, least_source, lesser_prio, no_indices, no_shares, nones, row_at, with_found};
ghost use Rattle.rk_agg.specs.declared.aggregates.TheConstants.{MOST_ROWS, MOST_SHARES};

use rk_model::limits::{MOST_CLUSTERS, MOST_OBJECTS};
use rk_model::{IndexSet, Items, NoMemory, Prio, ThreadIx};
use std::alloc::Global;
use std::marker::Model;

/// The most contributions: one of each thread, to each, in each cluster.
pub const MOST_SHARES: usize = 16_384;

/// The most priorities: one of each thread in each cluster.
const MOST_ROWS: usize = 256;

/// The contributions, at most one of each thread to each in each cluster. Contracts see them by
/// look-up, and not by an order.
///
/// A look-up, a contribution more and the least of them take the same few steps however many there are.
/// Only where the least of a thread goes are the others to it compared.
#[derive(Debug, Drop)]
pub struct Aggregates {
    /// What each thread contributes to each in each cluster.
    cells: Items<Option<Prio>>,
    /// The least of what is contributed to each thread in each cluster.
    least: Items<Option<Prio>>,
    /// Who contributes to each thread in each cluster.
    sources: Items<IndexSet>,
    /// To whom each thread contributes in each cluster.
    targets: Items<IndexSet>,
}

impl Model for Aggregates {
    ghost use Rattle.rk_agg.specs.Shares.{AreIndexed, AreLeast, Shares};

    ghost Value = { Shares };

    ghost view = { λ a. a.cells };

    ghost invariant = { λ a. AreLeast a.cells a.least × AreIndexed a.cells a.sources a.targets };
}

/// So many cells without a contribution.
fn nones(alloc: Global, count: usize) -> Result<Items<Option<Prio>>, NoMemory>
    ensures { IfOk result (λ cells. cells ≡ nones count) }
{
    let cells = vec![in alloc; None; count]?;
    Ok(Items::from_vec(cells))
}

/// So many sets of no index.
fn no_sets(alloc: Global, count: usize) -> Result<Items<IndexSet>, NoMemory>
    ensures size { IfOk result (λ sets. length sets ≡ count) }
    ensures none { IfOk result (λ sets. (r i : ℕ) → is_in (slice_index_or sets r no_indices) i ≡ false) }
{
    let sets = vec![in alloc; IndexSet::empty(); count]?;
    Ok(Items::from_vec(sets))
}

/// The set with an index in it or not, and all others as before.
fn noted(set: IndexSet, index: ThreadIx, there: bool) -> IndexSet
    ensures { (i : ℕ) → is_in result i ≡ (if index == i then there else is_in set i) }
{
    let mut noted = set;
    if there {
        noted.insert(index.at());
        return noted;
    }
    noted.remove(index.at());
    noted
}

/// Notes in the set of a row that an index is in it or not.
fn note(sets: &mut Items<IndexSet>, row: usize, index: ThreadIx, there: bool)
    requires { row < length sets.old }
    ensures size { length sets.new ≡ length sets.old }
    ensures row { (i : ℕ) → is_in (slice_index_or sets.new row no_indices) i ≡ (if index == i then there else is_in (slice_index_or sets.old row no_indices) i) }
    ensures others { (r : ℕ) → r ≢ row → slice_index_or sets.new r no_indices ≡ slice_index_or sets.old r no_indices }
{
    let set = noted(sets.at(row), index, there);
    sets.set(row, set);
}

/// Where a thread and a cluster stand among all, from 0.
fn row_of(thread: ThreadIx, cluster: u8) -> usize
    requires { cluster < MOST_CLUSTERS }
    ensures value { result ≡ row_at thread cluster }
    ensures row { is_row thread cluster ≡ true }
    ensures within { result < MOST_ROWS }
{
    (thread.at() as usize - 1) * MOST_CLUSTERS + cluster as usize
}

/// Where the contribution of a thread to another in a cluster stands, from 0.
fn cell_of(thread: ThreadIx, cluster: u8, source: ThreadIx) -> usize
    requires { cluster < MOST_CLUSTERS }
    ensures value { result + 1 ≡ cell_of thread cluster source }
    ensures row { is_row thread cluster ≡ true }
    ensures source { is_one source ≡ true }
    ensures within { result < MOST_SHARES }
{
    row_of(thread, cluster) * MOST_OBJECTS + (source.at() as usize - 1)
}

impl Aggregates {
    /// No contributions, and room for all. No other call takes memory.
    ///
    /// # Errors
    ///
    /// `NoMemory` where there is no memory for them.
    pub fn new(alloc: Global) -> Result<Aggregates, NoMemory>
        ensures { IfOk result (λ a. a ≡ no_shares) }
    {
        Ok(Aggregates {
            cells: nones(alloc, MOST_SHARES)?,
            least: nones(alloc, MOST_ROWS)?,
            sources: no_sets(alloc, MOST_ROWS)?,
            targets: no_sets(alloc, MOST_ROWS)?,
        })
    }

    /// What a thread contributes to another in a cluster; `None` where it contributes nothing.
    pub fn share(&self, thread: ThreadIx, cluster: u8, source: ThreadIx) -> Option<Prio>
        ensures { result ≡ found self.now thread cluster source }
    {
        if (cluster as usize) < MOST_CLUSTERS {
            self.cells.at(cell_of(thread, cluster, source))
        } else {
            None
        }
    }

    /// Adds the contribution of a thread to another in a cluster, where there is none.
    pub fn add(&mut self, thread: ThreadIx, cluster: u8, source: ThreadIx, prio: Prio)
        requires cluster { cluster < MOST_CLUSTERS }
        requires none { found self.old thread cluster source ≡ None }
        ensures { found self.new ≡ with_found thread cluster source (Some prio) (found self.old) }
    {
        // Reading the index tells its range.
        let _source = source.at();
        let least = lesser_of(Some(prio), self.least(thread, cluster));
        self.put(thread, cluster, source, Some(prio), least);
    }

    /// Changes the contribution of a thread to another in a cluster, where there is one.
    pub fn change(&mut self, thread: ThreadIx, cluster: u8, source: ThreadIx, prio: Prio)
        requires cluster { cluster < MOST_CLUSTERS }
        requires some { is_some (found self.old thread cluster source) ≡ true }
        ensures { found self.new ≡ with_found thread cluster source (Some prio) (found self.old) }
    {
        self.remove(thread, cluster, source);
        self.add(thread, cluster, source, prio);
    }

    /// Removes the contribution of a thread to another in a cluster, where there is one.
    pub fn remove(&mut self, thread: ThreadIx, cluster: u8, source: ThreadIx)
        requires { is_some (found self.old thread cluster source) ≡ true }
        ensures { found self.new ≡ with_found thread cluster source None (found self.old) }
    {
        let least = self.least_without(thread, cluster, source);
        self.put(thread, cluster, source, None, least);
    }

    /// The priority of a thread in a cluster: the least of the contributions to it; `None` exactly where
    /// there is none.
    pub fn least(&self, thread: ThreadIx, cluster: u8) -> Option<Prio>
        ensures { result ≡ least_source (found self.now thread cluster) }
    {
        if (cluster as usize) < MOST_CLUSTERS {
            self.least.at(row_of(thread, cluster))
        } else {
            None
        }
    }

    /// Who contributes to a thread in a cluster.
    pub fn sources(&self, thread: ThreadIx, cluster: u8) -> IndexSet
        ensures { (u : ℕ) → is_in result u ≡ is_some (found self.now thread cluster u) }
    {
        if (cluster as usize) < MOST_CLUSTERS {
            self.sources.at(row_of(thread, cluster))
        } else {
            IndexSet::empty()
        }
    }

    /// To whom a thread contributes in a cluster.
    pub fn targets(&self, source: ThreadIx, cluster: u8) -> IndexSet
        ensures { (t : ℕ) → is_in result t ≡ is_some (found self.now t cluster source) }
    {
        if (cluster as usize) < MOST_CLUSTERS {
            self.targets.at(row_of(source, cluster))
        } else {
            IndexSet::empty()
        }
    }

    /// Writes the contribution of a thread to another in a cluster, or none, with which this is the least.
    fn put(
        &mut self,
        thread: ThreadIx,
        cluster: u8,
        source: ThreadIx,
        share: Option<Prio>,
        least: Option<Prio>,
    )
        requires cluster { cluster < MOST_CLUSTERS }
        requires least { least ≡ least_source (with_found thread cluster source share (found self.old) thread cluster) }
        ensures { found self.new ≡ with_found thread cluster source share (found self.old) }
    {
        let there = share.is_some();
        let row = row_of(thread, cluster);
        self.cells.set(cell_of(thread, cluster, source), share);
        self.least.set(row, least);
        note(&mut self.sources, row, source, there);
        note(&mut self.targets, row_of(source, cluster), thread, there);
    }

    /// What a thread contributes to another in a cluster, if it isn't this source.
    fn share_but(
        &self,
        thread: ThreadIx,
        cluster: u8,
        but: ThreadIx,
        source: ThreadIx,
    ) -> Option<Prio>
        ensures { result ≡ with_found thread cluster but None (found self.now) thread cluster source }
    {
        if source == but {
            None
        } else {
            self.share(thread, cluster, source)
        }
    }

    /// The least of the contributions to a thread in a cluster but for that of a source, by comparing them.
    fn least_but(&self, thread: ThreadIx, cluster: u8, source: ThreadIx) -> Option<Prio>
        ensures { result ≡ least_source (with_found thread cluster source None (found self.now) thread cluster) }
    {
        let mut rest = self.sources(thread, cluster);
        let mut best = None;
        'comparing: while let Some(at) = rest.take_least() {
            let other = ThreadIx::new(at);
            best = lesser_of(best, self.share_but(thread, cluster, source, other));
        }
        best
    }

    /// The least of the contributions to a thread in a cluster but for that of a source, which has one.
    fn least_without(&self, thread: ThreadIx, cluster: u8, source: ThreadIx) -> Option<Prio>
        requires { is_some (found self.now thread cluster source) ≡ true }
        ensures { result ≡ least_source (with_found thread cluster source None (found self.now) thread cluster) }
    {
        // Reading the index tells its range.
        let _source = source.at();
        let share = self.share(thread, cluster, source);
        let least = self.least(thread, cluster);
        if is_same_prio(&share, &least) {
            self.least_but(thread, cluster, source)
        } else {
            least
        }
    }
}

/// Whether two priorities are the same, of which each may be none.
fn is_same_prio(one: &Option<Prio>, other: &Option<Prio>) -> bool
    ensures { result ≡ is_same_prio one.now other.now }
{
    match one {
        None => other.is_none(),
        Some(one) => match other {
            None => false,
            Some(other) => one.level() == other.level(),
        },
    }
}

/// The lesser of two priorities, of which each may be none.
pub fn lesser_of(one: Option<Prio>, other: Option<Prio>) -> Option<Prio>
    ensures { result ≡ lesser_prio one other }
{
    match one {
        None => other,
        Some(prio) => match other {
            None => Some(prio),
            Some(found) => {
                if prio.level() <= found.level() {
                    Some(prio)
                } else {
                    Some(found)
                }
            }
        },
    }
}

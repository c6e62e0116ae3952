ghost use Rattle.std.specs.Prelude.{◌≡◌, ◌<◌, true, false, Some, IfOk};
ghost use Rattle.std.specs.Borrow.{Lends, sem};
ghost use Rattle.rk_model.specs.State.{no_period};
ghost use Rattle.rk_model.specs.Directives.Periods.{end_of, new_period, passed};
ghost use Rattle.rk_period.specs.Periods.{Fits, waits_for, called, reply_to_call, passing_of, cancelled_by, reply_to_cancel, removed, reply_to_remove};
ghost use Rattle.rk_places.specs.Stores.{none_live, IsOfGroup, IsStoreOf, stored_at, put_at};

use crate::period::Passed;
use crate::slot::Slot;
use rk_model::{NoMemory, Phase, Reply, Stats, ThreadIx};
use rk_places::{PLACES, Places};
use std::alloc::Global;
use std::marker::Model;

/// The periods of a group: those whose index is its number and one more, or this and 4, 8 and so on
/// up to 60 more. Contracts see the number and a place for each index from 1 to 64, of which those
/// of other groups have no period.
#[derive(Debug, Drop)]
pub struct PeriodStore {
    places: Places<Slot>,
}

impl Model for PeriodStore {
    ghost use Rattle.rk_model.specs.State.{PeriodState, no_period};
    ghost use Rattle.rk_places.specs.Stores.{Store, IsFull, store_of};

    ghost Value = { Store PeriodState };

    ghost view = { λ s. store_of no_period s.places };

    ghost invariant = { λ s. IsFull s.places };
}

impl PeriodStore {
    ghost use Rattle.rk_period.specs.contracts.slot.Slot.{the_row as slot_row};
    ghost use Rattle.rk_period.specs.contracts.store.PeriodStore.{the_row};

    /// The places of a group, in which no period lives. Nothing else takes memory.
    ///
    /// # Errors
    ///
    /// `NoMemory` where there is no memory for them.
    pub fn new(alloc: Global, group: u8) -> Result<PeriodStore, NoMemory>
        requires { group < 4 }
        ensures { IfOk result (λ s. s ≡ none_live no_period group) }
    {
        let mut places = Places::new(alloc, group)?;
        for _made in 0..PLACES {
            places.push(Slot::new());
        }
        Ok(PeriodStore { places })
    }

    /// Whether a period of this index lives.
    pub fn is_live(&self, index: u16) -> bool
        requires { IsOfGroup self.now.group index }
        ensures value { result ≡ (stored_at no_period self.now index).live }
        ensures vacant { result ≡ false → stored_at no_period self.now index ≡ no_period }
    {
        self.slot(index).is_live()
    }

    /// The thread that created a period.
    pub fn creator(&self, index: u16) -> ThreadIx
        requires place { IsOfGroup self.now.group index }
        requires live { (stored_at no_period self.now index).live ≡ true }
        ensures { result ≡ (stored_at no_period self.now index).creator }
    {
        self.slot(index).living().creator
    }

    /// How a period stands. With it and the statistics a caller can test what `period` and `passed`
    /// ask for.
    pub fn phase(&self, index: u16) -> Phase
        requires place { IsOfGroup self.now.group index }
        requires live { (stored_at no_period self.now index).live ≡ true }
        ensures { result ≡ (stored_at no_period self.now index).phase }
    {
        self.slot(index).living().phase
    }

    /// The statistics of a period's ended jobs (`rtems_rate_monotonic_get_statistics`).
    pub fn stats(&self, index: u16) -> Stats
        requires place { IsOfGroup self.now.group index }
        requires live { (stored_at no_period self.now index).live ≡ true }
        ensures { result ≡ (stored_at no_period self.now index).stats }
    {
        self.slot(index).living().stats
    }

    /// Makes an inactive period of a creator (`rtems_rate_monotonic_create`). It takes no memory.
    pub fn create(&mut self, index: u16, by: ThreadIx)
        requires place { IsOfGroup self.old.group index }
        requires vacant { (stored_at no_period self.old index).live ≡ false }
        ensures { self.new ≡ put_at self.old index (new_period by) }
    {
        self.slot_mut(index).create(by);
    }

    /// Begins the next job of a period, whose length is in ticks (`rtems_rate_monotonic_period`), at
    /// the present tick, at which the caller has computed `used` ticks.
    ///
    /// The status is `NotOwnerOfResource` where the caller isn't the creator. With length 0 nothing
    /// changes, and it is `NotDefined` where the period is inactive, `Timeout` where it is expired,
    /// and `Successful` where it is active. Else the running job ends and the length is stored: where
    /// the period was inactive, its first job starts and it ends `length` ticks from now, with
    /// `Successful`; where it was expired, one of the postponed jobs starts, with `Timeout`; where it
    /// was active, the caller waits for its end, with `Waits`. An end that stands stays, and the
    /// length counts from it on.
    pub fn period(&mut self, index: u16, by: ThreadIx, length: u32, now: u64, used: u64) -> Reply
        requires place { IsOfGroup self.old.group index }
        requires live { (stored_at no_period self.old index).live ≡ true }
        requires goes_on { waits_for (stored_at no_period self.old index) by ≡ false }
        requires fits { by ≡ (stored_at no_period self.old index).creator → Fits now used (stored_at no_period self.old index) }
        ensures period { self.new ≡ put_at self.old index (called by length now used (stored_at no_period self.old index)) }
        ensures reply { result ≡ reply_to_call by length (stored_at no_period self.old index) }
    {
        self.slot_mut(index)
            .living_mut()
            .call(by, length, now, used)
    }

    /// Lets the end of a period pass, which is the present tick: its next end is its length later.
    /// Where its creator waits for it, its next job starts; else one more job is postponed. The
    /// creator has computed `used` ticks.
    pub fn passed(&mut self, index: u16, now: u64, used: u64) -> Passed
        requires place { IsOfGroup self.old.group index }
        requires live { (stored_at no_period self.old index).live ≡ true }
        requires due { end_of (stored_at no_period self.old index).phase ≡ Some now }
        requires fits { Fits now used (stored_at no_period self.old index) }
        ensures period { self.new ≡ put_at self.old index (passed now used (stored_at no_period self.old index)) }
        ensures passing { result ≡ passing_of (stored_at no_period self.old index).phase }
    {
        self.slot_mut(index).living_mut().pass(now, used)
    }

    /// Makes a period inactive, without postponed jobs (`rtems_rate_monotonic_cancel`). Its running
    /// job isn't counted, and its statistics stay. The status is `NotOwnerOfResource` where the
    /// caller isn't its creator, and else `Successful`.
    pub fn cancel(&mut self, index: u16, by: ThreadIx) -> Reply
        requires place { IsOfGroup self.old.group index }
        requires live { (stored_at no_period self.old index).live ≡ true }
        requires goes_on { waits_for (stored_at no_period self.old index) by ≡ false }
        ensures period { self.new ≡ put_at self.old index (cancelled_by by (stored_at no_period self.old index)) }
        ensures reply { result ≡ reply_to_cancel by (stored_at no_period self.old index) }
    {
        self.slot_mut(index).living_mut().cancel(by)
    }

    /// Ends the life of a period (`rtems_rate_monotonic_delete`). The status is `ResourceInUse` where
    /// its creator waits for it, and else `Successful`.
    pub fn remove(&mut self, index: u16) -> Reply
        requires place { IsOfGroup self.old.group index }
        requires live { (stored_at no_period self.old index).live ≡ true }
        ensures period { self.new ≡ put_at self.old index (removed (stored_at no_period self.old index)) }
        ensures reply { result ≡ reply_to_remove (stored_at no_period self.old index) }
    {
        self.slot_mut(index).remove()
    }

    /// The place of an index.
    fn slot(&self, index: u16) -> &Slot
        requires { IsOfGroup self.now.group index }
        ensures { result.now ≡ stored_at no_period self.now index }
    {
        self.places.at(index)
    }

    /// The place of an index, to be changed.
    fn slot_mut(&mut self, index: u16) -> &mut Slot
        requires { IsOfGroup self.old.group index }
        ensures* writes_back { sem 𝓛 (Lends the_row slot_row self.entry result (put_at self.entry.now index)) }
        ensures value { result.now ≡ stored_at no_period self.old index }
    {
        self.places.at_mut(index)
    }

    /// The number of the group, from 0 to 3. Its contract also tells that there are places for 64
    /// periods, and that at each index of another group none lives.
    pub fn group(&self) -> u8
        ensures value { result ≡ self.now.group }
        ensures store { IsStoreOf no_period self.now }
    {
        self.places.group()
    }
}

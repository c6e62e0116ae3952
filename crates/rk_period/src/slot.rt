ghost use Rattle.std.specs.Prelude.{◌≡◌, true, false};
ghost use Rattle.std.specs.Borrow.{Lends, sem};
ghost use Rattle.rk_model.specs.State.{no_period};
ghost use Rattle.rk_model.specs.Directives.Periods.{new_period};
ghost use Rattle.rk_period.specs.Periods.{removed, reply_to_remove};
ghost use Rattle.rk_period.specs.PeriodSlots.{place_with};

use crate::period::{Period, reply};
use crate::phase;
use rk_model::{Reply, Status, ThreadIx};
use std::marker::Model;

/// A place for a period.
#[derive(Debug, Drop)]
pub(crate) struct Slot {
    period: Option<Period>,
}

impl Model for Slot {
    ghost use Rattle.rk_model.specs.State.{PeriodState};
    ghost use Rattle.rk_period.specs.PeriodSlots.{stored_by};

    ghost Value = { PeriodState };

    ghost view = { λ s. stored_by s.period };
}

impl Slot {
    ghost use Rattle.rk_period.specs.contracts.period.Period.{the_row as period_row};
    ghost use Rattle.rk_period.specs.contracts.slot.Slot.{the_row};

    /// A place in which no period lives.
    pub(crate) fn new() -> Slot
        ensures { result ≡ no_period }
    {
        Slot { period: None }
    }

    /// Whether a period lives there.
    pub(crate) fn is_live(&self) -> bool
        ensures value { result ≡ self.now.live }
        ensures vacant { result ≡ false → self.now ≡ no_period }
    {
        self.period.is_some()
    }

    /// The period that lives there.
    pub(crate) fn living(&self) -> &Period
        requires { self.now.live ≡ true }
        ensures { place_with result.now ≡ self.now }
    {
        self.period.as_ref().unwrap()
    }

    /// The period that lives there, to be changed.
    pub(crate) fn living_mut(&mut self) -> &mut Period
        requires { self.old.live ≡ true }
        ensures* writes_back { sem 𝓛 (Lends the_row period_row self.entry result place_with) }
        ensures value { place_with result.now ≡ self.old }
    {
        self.period.as_mut().unwrap()
    }

    /// Makes a period there.
    pub(crate) fn create(&mut self, by: ThreadIx)
        requires { self.old.live ≡ false }
        ensures { self.new ≡ new_period by }
    {
        self.period = Some(Period::new(by));
    }

    /// Ends the life of the period.
    pub(crate) fn remove(&mut self) -> Reply
        requires { self.old.live ≡ true }
        ensures period { self.new ≡ removed self.old }
        ensures reply { result ≡ reply_to_remove self.old }
    {
        if phase::is_awaited(self.living().phase) {
            reply(Status::ResourceInUse)
        } else {
            self.period = None;
            reply(Status::Successful)
        }
    }
}

//! The seats of a kernel.
ghost use Rattle.std.specs.Prelude.{◌≡◌, ◌<◌};
ghost use Rattle.rk_model.specs.declared.limits.TheConstants.{MOST_PROCESSORS};

use rk_journal::Mark;
use std::marker::Model;

/// The seat of a processor. Contracts see its number, the opening that it is of, and its front, the
/// beginning of the history that it has seen.
#[derive(Drop)]
pub struct Cpu {
    pub(crate) number: u8,
    /// It is there but inside of calls, which take it out and put it back.
    pub(crate) mark: Option<Mark>,
}

impl Model for Cpu {
    ghost use Rattle.rk_shared.specs.SeatViews.{SeatView, seat_view, SitsAt};

    ghost Value = { SeatView };

    ghost view = { λ c. seat_view c.number c.mark };

    ghost invariant = { λ c. SitsAt c.number c.mark };
}

impl Cpu {
    /// The number of its processor, which is below 8.
    pub fn number(&self) -> u8
        ensures number { result ≡ self.now.number }
        ensures few { result < MOST_PROCESSORS }
    {
        self.number
    }
}

/// The seat of the clock. Contracts see the same of it as of a processor's; its number is `CLOCK`.
#[derive(Drop)]
pub struct Clock {
    /// It is there but inside of calls, which take it out and put it back.
    pub(crate) mark: Option<Mark>,
}

impl Model for Clock {
    ghost use Rattle.rk_model.specs.declared.limits.TheConstants.{CLOCK};
    ghost use Rattle.rk_shared.specs.SeatViews.{SeatView, seat_view, IsClocks};

    ghost Value = { SeatView };

    ghost view = { λ c. seat_view CLOCK c.mark };

    ghost invariant = { λ c. IsClocks c.mark };
}

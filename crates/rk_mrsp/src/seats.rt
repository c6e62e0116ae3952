ghost use Rattle.std.specs.Prelude.{◌≡◌, ◌<◌, ◌≤◌, [], ◌∷◌, ◌++◌, length, IfOk, false};
ghost use Rattle.rk_model.specs.declared.limits.TheConstants.{MOST_PROCESSORS};
ghost use Rattle.rk_mrsp.specs.Scenes.{cpu_in, has_seat};

use rk_model::limits::MOST_PROCESSORS;
use rk_model::{Bounded, NoMemory, ThreadIx};
use std::alloc::Global;
use std::marker::Model;

/// A processor with a thread: the one that it has, or the one that it helps.
#[derive(Clone, Copy, Debug, PartialEq, Eq)]
pub struct Seat {
    /// The number of the processor, from 0.
    pub cpu: u8,
    /// The thread.
    pub thread: ThreadIx,
}

/// The threads that processors have. Contracts see each processor that has one, with its thread.
#[derive(Debug, Drop)]
pub struct Assigned {
    seats: Bounded<Seat, MOST_PROCESSORS>,
}

impl Model for Assigned {
    ghost use Rattle.std.specs.Prelude.{List};
    ghost use Rattle.rk_mrsp.specs.declared.seats.Seat.{Seat};
    ghost use Rattle.rk_mrsp.specs.Scenes.{AreSeats};

    ghost Value = { List Seat };

    ghost view = { λ a. a.seats };

    ghost invariant = { λ a. AreSeats a.seats };
}

impl Assigned {
    /// No processor has a thread; there is room for 8.
    ///
    /// # Errors
    ///
    /// `NoMemory` where there is no memory for them.
    pub fn new(alloc: Global) -> Result<Assigned, NoMemory>
        ensures { IfOk result (λ a. a ≡ []) }
    {
        Ok(Assigned {
            seats: Bounded::new(alloc)?,
        })
    }

    /// No processor has a thread.
    pub fn clear(&mut self)
        ensures { self.new ≡ [] }
    {
        self.seats.clear();
    }

    /// Another processor has a thread.
    pub fn add(&mut self, cpu: u8, thread: ThreadIx)
        requires low { cpu < MOST_PROCESSORS }
        requires free { has_seat self.old cpu ≡ false }
        ensures { self.new ≡ self.old ++ record { cpu = cpu; thread = thread } ∷ [] }
    {
        self.seats.push(Seat { cpu, thread });
    }

    /// Each processor that has a thread. Its contract also tells that there are at most 8.
    pub(crate) fn seats(&self) -> &[Seat]
        ensures value { result.now ≡ self.now }
        ensures few { length self.now ≤ MOST_PROCESSORS }
    {
        self.seats.as_slice()
    }
}

/// The thread of a processor among these.
pub(crate) fn thread_in(seats: &[Seat], cpu: u8) -> Option<ThreadIx>
    ensures { result ≡ cpu_in seats.now cpu }
{
    for seat in seats {
        if seat.cpu == cpu {
            return Some(seat.thread);
        }
    }
    None
}

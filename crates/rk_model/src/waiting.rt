//! What the kernel hands to the managers whose objects tasks wait for, and what they give back.

ghost use Rattle.std.specs.Prelude.{◌≡◌, ◌<◌, [], ◌∷◌, ◌++◌, length, IfOk};

use crate::bounded::Bounded;
use crate::keyed::Keyed;
use crate::limits::MOST_OBJECTS;
use crate::memory::NoMemory;
use crate::numbers::{Prio, ThreadIx};
use crate::status::Status;
use std::alloc::Global;
use std::marker::Model;

/// In which order a queue serves the threads that wait in it.
#[derive(Clone, Copy, Debug, PartialEq, Eq)]
pub enum Order {
    /// The earliest arrival first (`RTEMS_FIFO`).
    Fifo,
    /// By turns of clusters, and of a cluster the most urgent first (`RTEMS_PRIORITY`).
    Priority,
}

/// A task that calls a directive.
#[derive(Clone, Copy, Debug, PartialEq, Eq)]
pub struct Caller {
    /// Its index.
    pub thread: ThreadIx,
    /// The number of its home cluster, from 0 to 3.
    pub home: u8,
    /// Its priority in its home.
    pub prio: Prio,
}

/// A thread that waits in a queue.
#[derive(Clone, Copy, Debug, PartialEq, Eq)]
pub struct Waiter {
    /// The thread.
    pub thread: ThreadIx,
    /// The number of its cluster, by whose turns it is served where the order is `Priority`.
    pub cluster: u8,
    /// Its priority in the queue.
    pub prio: Prio,
}

impl Keyed for Waiter {
    type Key = ThreadIx;

    ghost use Rattle.std.specs.Prelude.{◌==◌};

    ghost is_of = { λ waiter thread. waiter.thread == thread };

    fn has_key(&self, key: ThreadIx) -> bool {
        self.thread == key
    }
}

/// The end of a thread's wait.
#[derive(Clone, Copy, Debug, PartialEq, Eq)]
pub struct Wake {
    /// The thread.
    pub thread: ThreadIx,
    /// The status with which it returns.
    pub status: Status,
    /// The out number with which it returns; 0 where it has none.
    pub out: u32,
}

/// The waits that a call of a manager has ended, at most 64, in order of arrival.
#[derive(Debug, Drop)]
pub struct Wakes {
    wakes: Bounded<Wake, MOST_OBJECTS>,
}

impl Model for Wakes {
    ghost use Rattle.std.specs.Prelude.{List};
    ghost use Rattle.rk_model.specs.declared.waiting.Wake.{Wake};

    ghost Value = { List Wake };

    ghost view = { λ w. w.wakes };
}

impl Wakes {
    /// No wakes, and room for 64.
    ///
    /// # Errors
    ///
    /// `NoMemory` where there is no memory for them.
    pub fn new(alloc: Global) -> Result<Wakes, NoMemory>
        ensures { IfOk result (λ w. w ≡ []) }
    {
        let wakes = Bounded::new(alloc)?;
        Ok(Wakes { wakes })
    }

    /// Adds a wake as the last.
    pub fn push(&mut self, wake: Wake)
        requires { length self.old < MOST_OBJECTS }
        ensures { self.new ≡ self.old ++ wake ∷ [] }
    {
        self.wakes.push(Wake {
            thread: wake.thread,
            status: wake.status,
            out: wake.out,
        });
    }

    /// The wakes in their order.
    pub fn list(&self) -> &[Wake]
        ensures { result.now ≡ self.now }
    {
        self.wakes.as_slice()
    }

    /// Takes all wakes out.
    pub fn clear(&mut self)
        ensures { self.new ≡ [] }
    {
        self.wakes.clear();
    }
}

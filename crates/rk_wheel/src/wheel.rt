ghost use Rattle.std.specs.Prelude.{◌≡◌, [], ◌∷◌, ◌++◌, IfOk, IfSome, IfNone};
ghost use Rattle.std.specs.List.{position_or_len};
ghost use Rattle.rk_model.specs.Scheduling.Timers.{is_due, due_at, head_of, without_due, times_armed, without_timer};
ghost use Rattle.rk_wheel.specs.Wheels.{IsKnown, IsArmer, due_of};

use rk_model::{Armed, Armer, Bounded, NoMemory, position_of};
use std::alloc::Global;
use std::marker::Model;

/// The most timers that are armed: those of 64 threads and of 64 periods.
pub const MOST_TIMERS: usize = 128;

/// The armed timers, each of whose owners has one. Contracts see the list of them in the order of
/// arming.
#[derive(Debug, Drop)]
pub struct Wheel {
    timers: Bounded<Armed, MOST_TIMERS>,
}

impl Model for Wheel {
    ghost use Rattle.std.specs.Prelude.{List};
    ghost use Rattle.rk_model.specs.declared.state.Armed.{Armed};
    ghost use Rattle.rk_wheel.specs.Wheels.{IsWheel};

    ghost Value = { List Armed };

    ghost view = { λ w. w.timers };

    ghost invariant = { λ w. IsWheel w.timers };
}

impl Wheel {
    /// No armed timers, with room for those of 64 threads and of 64 periods.
    ///
    /// # Errors
    ///
    /// `NoMemory` where there is no memory for them.
    pub fn new(alloc: Global) -> Result<Wheel, NoMemory>
        ensures { IfOk result (λ w. w ≡ []) }
    {
        Ok(Wheel {
            timers: Bounded::new(alloc)?,
        })
    }

    /// Arms the timer of one that has none: it is due at the tick `due`, and is the last in the
    /// order of arming. It takes no memory.
    pub fn arm(&mut self, who: Armer, due: u64)
        requires free { times_armed who self.old ≡ 0 }
        requires known { IsKnown who }
        ensures { self.new ≡ self.old ++ (record { who = who; due = due }) ∷ [] }
    {
        self.timers.push(new_timer(who, due));
    }

    /// Takes the timer of one out.
    pub fn cancel(&mut self, who: Armer)
        requires { times_armed who self.old ≡ 1 }
        ensures { self.new ≡ without_timer who self.old }
    {
        let at = position_of(self.timers.as_slice(), who);
        self.timers.take(at);
    }

    /// The tick at which the timer of one is due. `None` exactly where it has none.
    pub fn due(&self, who: Armer) -> Option<u64>
        ensures value { result ≡ due_of who self.now }
        ensures some { IfSome result (λ d. times_armed who self.now ≡ 1) }
        ensures none { IfNone result (times_armed who self.now ≡ 0) }
    {
        let timers = self.timers.as_slice();
        let at = position_of(timers, who);
        if at < timers.len() {
            Some(timers[at].due)
        } else {
            None
        }
    }

    /// Takes out the first timer, in the order of arming, that is due at the tick `now`, and gives
    /// it. `None` exactly where there is none.
    pub fn take_due(&mut self, now: u64) -> Option<Armed>
        ensures first { result ≡ head_of (due_at now self.old) }
        ensures rest { self.new ≡ without_due now self.old }
    {
        let at = first_due(self.timers.as_slice(), now);
        if at < self.timers.len() {
            Some(self.timers.take(at))
        } else {
            None
        }
    }
}

/// The timer of one that is due at a tick.
fn new_timer(who: Armer, due: u64) -> Armed
    requires { IsKnown who }
    ensures value { result ≡ record { who = who; due = due } }
    ensures within { IsArmer result.who }
{
    if let Armer::Thread(thread) = who {
        // Reading the index tells its range.
        let _index = thread.at();
    }
    Armed { who, due }
}

/// How many timers stand in front of the first that is due at a tick; the number of timers where
/// none is due then.
fn first_due(timers: &[Armed], now: u64) -> usize
    ensures { result ≡ position_or_len (is_due now) timers.now }
{
    for (at, timer) in timers.iter().enumerate() {
        if timer.due == now {
            return at;
        }
    }
    timers.len()
}

ghost use Rattle.std.specs.Prelude.{◌≡◌};
ghost use Rattle.rk_model.specs.Scheduling.Priorities.{is_spinning};
ghost use Rattle.rk_parts.specs.Threads.{bearing, is_ready, no_bearing};

use rk_model::{Life, Prio, Thread, Wait};

/// What of a thread bears on how threads stand: the rest of it can change, and all stand as before.
#[derive(Clone, Copy, Debug, PartialEq, Eq)]
pub struct Bearing {
    /// How far its life has come.
    pub life: Life,
    /// The number of the cluster that it runs in.
    pub home: u8,
    /// Its base priority.
    pub base: Prio,
    /// What it waits for.
    pub wait: Option<Wait>,
    /// Whether it is suspended.
    pub suspended: bool,
}

/// What a thread bears.
pub fn bearing_of(thread: Thread) -> Bearing
    ensures { result ≡ bearing thread }
{
    Bearing {
        life: thread.life,
        home: thread.home,
        base: thread.base,
        wait: thread.wait,
        suspended: thread.suspended,
    }
}

/// What no thread bears.
pub fn no_bearing() -> Bearing
    ensures { result ≡ no_bearing }
{
    Bearing {
        life: Life::Absent,
        home: 0,
        base: Prio::least_urgent(),
        wait: None,
        suspended: false,
    }
}

/// Whether a thread that waits for this spins.
pub(crate) fn is_spinning(wait: Option<Wait>) -> bool
    ensures { result ≡ is_spinning wait }
{
    match wait {
        Some(Wait::ForSemaphore(_, spins)) => spins,
        _ => false,
    }
}

/// Whether a thread that bears this is eligible.
pub fn is_ready(bearing: Bearing) -> bool
    ensures { result ≡ is_ready bearing }
{
    matches!(bearing.life, Life::Started)
        && !bearing.suspended
        && (bearing.wait.is_none() || is_spinning(bearing.wait))
}

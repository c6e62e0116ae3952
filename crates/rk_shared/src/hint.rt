//! The length of the history, for those that poll.
use crossbeam_utils::CachePadded;
use std::sync::atomic::{AtomicU64, Ordering};

/// How many entries the history had when the last one was appended. It is read without the lock, and no
/// contract speaks of it.
#[derive(Drop)]
pub(crate) struct LengthHint {
    count: CachePadded<AtomicU64>,
}

impl LengthHint {
    /// That of an empty history.
    pub(crate) fn new() -> LengthHint {
        LengthHint {
            count: CachePadded::new(AtomicU64::new(0)),
        }
    }

    pub(crate) fn get(&self) -> u64 {
        self.count.load(Ordering::SeqCst)
    }

    /// Who appends calls it before the lock is released.
    pub(crate) fn set(&self, count: u32) {
        self.count.store(u64::from(count), Ordering::SeqCst);
    }
}

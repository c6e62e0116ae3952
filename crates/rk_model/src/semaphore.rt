ghost use Rattle.std.specs.Prelude.{◌≡◌};
ghost use Rattle.rk_model.specs.Directives.Semaphores.{is_counting, is_binary, has_protocol, has_ceiling, is_ceiling, is_mrsp};

use crate::waiting::Order;

/// The kinds of semaphores.
#[derive(Clone, Copy, Debug, PartialEq, Eq)]
pub enum SemKind {
    /// It has a count, which each obtain lowers and each release raises
    /// (`RTEMS_COUNTING_SEMAPHORE`).
    Counting,
    /// It is free or taken, and any task may release it (`RTEMS_SIMPLE_BINARY_SEMAPHORE`).
    Simple,
    /// It has an owner or none. Its owner may obtain it again, and alone may release it
    /// (`RTEMS_BINARY_SEMAPHORE`).
    Binary,
}

impl SemKind {
    /// Whether a semaphore of this kind counts.
    pub fn is_counting(self) -> bool
        ensures { result ≡ is_counting self }
    {
        matches!(self, SemKind::Counting)
    }

    /// Whether a semaphore of this kind has an owner or none.
    pub fn is_binary(self) -> bool
        ensures { result ≡ is_binary self }
    {
        matches!(self, SemKind::Binary)
    }
}

/// By what a semaphore raises its owner's priority.
#[derive(Clone, Copy, Debug, PartialEq, Eq)]
pub enum Protocol {
    /// By nothing.
    NoProtocol,
    /// By the priorities of those that wait for it (`RTEMS_INHERIT_PRIORITY`).
    Inherit,
    /// By its ceiling (`RTEMS_PRIORITY_CEILING`).
    Ceiling,
    /// By its ceiling in each cluster, while those that wait for it spin and help its owner
    /// (`RTEMS_MULTIPROCESSOR_RESOURCE_SHARING`).
    Mrsp,
}

impl Protocol {
    /// Whether it raises an owner's priority.
    pub fn raises(self) -> bool
        ensures { result ≡ has_protocol self }
    {
        !matches!(self, Protocol::NoProtocol)
    }

    /// Whether it has a ceiling.
    pub fn has_ceiling(self) -> bool
        ensures { result ≡ has_ceiling self }
    {
        matches!(self, Protocol::Ceiling | Protocol::Mrsp)
    }

    /// Whether it is that of ceiling semaphores.
    pub fn is_ceiling(self) -> bool
        ensures { result ≡ is_ceiling self }
    {
        matches!(self, Protocol::Ceiling)
    }

    /// Whether it is that of MrsP semaphores.
    pub fn is_mrsp(self) -> bool
        ensures { result ≡ is_mrsp self }
    {
        matches!(self, Protocol::Mrsp)
    }
}

/// What a semaphore is to be made with.
#[derive(Clone, Copy, Debug, PartialEq, Eq)]
pub struct SemSpec {
    /// Its count. A binary semaphore with count 0 is owned by its creator, and with count 1 it is
    /// free.
    pub count: u32,
    /// Its kind.
    pub kind: SemKind,
    /// In which order its queue serves those that wait for it.
    pub order: Order,
    /// Its protocol.
    pub protocol: Protocol,
    /// Its ceiling, from 1 to 255, where the protocol has one.
    pub ceiling: u32,
}

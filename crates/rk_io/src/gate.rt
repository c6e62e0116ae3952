/// What is told of each directive that a processor does, so that tests can see or delay it.
pub trait Gate: Sync {
    /// Called once for each directive, after it is done and before its entry is appended, while the
    /// kernel's lock is held. `cpu` is the processor's number.
    fn at(&self, cpu: u8);
}

/// Does nothing.
#[derive(Clone, Copy, Debug)]
pub struct OpenGate;

impl Gate for OpenGate {
    fn at(&self, _cpu: u8) {}
}

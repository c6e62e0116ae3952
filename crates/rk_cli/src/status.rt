//! The statuses with which the program ends.

/// The schedule was written, and its history ends with the end of the run.
pub(crate) const FINISHED: u8 = 0;

/// Nothing is wrong with the schedule.
pub(crate) const ACCEPTED: u8 = 0;

/// The schedule has a fault.
pub(crate) const REJECTED: u8 = 7;

/// The words are those of no command.
pub(crate) const USAGE: u8 = 1;

/// The text that was read is no scenario's.
pub(crate) const REFUSED: u8 = 2;

/// Out of memory.
pub(crate) const NO_MEMORY: u8 = 3;

/// The schedule was written, and its history was cut at the scenario's limit.
pub(crate) const LIMITED: u8 = 4;

/// The source failed.
pub(crate) const READ_FAULT: u8 = 5;

/// The sink failed.
pub(crate) const WRITE_FAULT: u8 = 6;

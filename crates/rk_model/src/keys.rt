//! The keys: one for each part of the kernel, and one for each seat.

/// How many keys there are. Each is below this number.
pub const KEYS: usize = 18;

/// The key of the first group. The keys below it are those of the clusters.
pub const FIRST_GROUP: u8 = 4;

/// The key of the table.
pub const TABLE: u8 = 8;

/// The key of the first seat. The keys from it on are those of the processors and of the clock.
pub const FIRST_SEAT: u8 = 9;

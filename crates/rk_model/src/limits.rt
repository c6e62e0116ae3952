//! The least and the greatest numbers of things, and the numbers that stand for something.

/// The most clusters.
pub const MOST_CLUSTERS: usize = 4;

/// The most processors of all clusters together.
pub const MOST_PROCESSORS: usize = 8;

/// The seat of the clock. The seats below it are those of the processors.
pub const CLOCK: u8 = 8;

/// The greatest index of an object of a class, and so the most objects of a class that live.
pub const MOST_OBJECTS: usize = 64;

/// The most buffers of a partition.
pub const MOST_BUFFERS: usize = 1_024;

/// The bytes of which the start of a partition and the size of its buffers are multiples.
pub const ALIGNMENT: u32 = 8;

/// How many addresses there are: the memory of a partition ends at most there.
pub const ADDRESSES: u64 = 4_294_967_296;

/// The greatest count of a counting semaphore.
pub const MOST_COUNT: u32 = 4_294_967_295;

/// The greatest nesting of a binary semaphore: as many times its owner can have obtained it without
/// releasing it.
pub const MOST_NESTING: u64 = 18_446_744_073_709_551_615;

/// The number of the least urgent priority. The most urgent is 1.
pub const LEAST_URGENT: u8 = 255;

/// The greatest number of ticks, of a run or of a line `work`.
pub const MOST_TICKS: u32 = 1_000_000;

/// The greatest limit of entries of a history.
pub const MOST_ENTRIES: u32 = 1_000_000;

/// The limit of entries of a scenario without a line `limit`.
pub const USUAL_ENTRIES: u32 = 200_000;

/// The most bodies.
pub const MOST_BODIES: usize = 32;

/// The most lines of a body.
pub const MOST_LINES: usize = 1_000;

/// The most bytes of a scenario's text.
pub const MOST_BYTES: usize = 1_048_576;

/// The most bytes of an input of `check`: of a scenario, and of a schedule behind it.
pub const MOST_CHECKED: usize = 104_857_600;

//! What a script may ask for, and what its input may have. A member that asks for more is a bad one.

/// The most bytes of an input, and so of the frames of a stream.
pub const MOST_INPUT: usize = 268_435_456;

/// The most bytes of the first line, its line feed counted.
pub const LONGEST_LINE: usize = 1_048_576;

/// The most replicas of a volume.
pub const MOST_REPLICAS: u64 = 8;

/// The most streams.
pub const MOST_STREAMS: usize = 16;

/// The most calls of a run, and so the most commands of a stream.
pub const MOST_CALLS: usize = 65_536;

/// The most failures that are planned of one line.
pub const MOST_FAILURES: usize = 1_024;

/// The largest number of a carry that is planned to fail.
pub const LARGEST_CARRY: u64 = 4_294_967_295;

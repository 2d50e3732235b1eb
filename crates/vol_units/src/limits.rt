/// The most layers of a volume, its head among them.
pub const MOST_LAYERS: usize = 250;

/// The most bytes that one call reads or writes.
pub const LONGEST_CALL: u32 = 1_048_576;

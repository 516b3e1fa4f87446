// The largest number of 64 bits, which stands for infinity.
pub const TOP: u64 = u64::MAX;

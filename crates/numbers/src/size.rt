// The sizes that document 01 fixes, each named once for all code above.

// The last window L of a table is 1 to 64.
pub const LAST_WINDOW: usize = 64;

// The last window that the envelope answers.
pub const LAST_ASKED: usize = 4160;

// The most packets of a table's entry, a buffer limit and a slot's arrivals.
pub const MOST_PACKETS: u64 = 1_000_000;

// The same in 32 bits: a constant has one type.
pub const MOST_PACKETS_32: u32 = MOST_PACKETS as u32;

// The longest delay limit, in slots.
pub const LONGEST_DELAY: u32 = 64;

// The most slots of a live regulator.
pub const MOST_SLOTS: u32 = 1_000_000;

// The longest trace of a run, in slots.
pub const LONGEST_TRACE: usize = 4096;

// The longest trace of the listing and of the pencil version, in slots.
pub const SHORT_TRACE: usize = 5;

// The places of a live regulator's row.
pub const ROW_PLACES: usize = 192;

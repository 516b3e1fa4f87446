// Counts of slots and of packets. They are separate types, so that a delay is never added to a buffer.
#[repr(C)]
#[derive(Clone, Copy)]
pub struct Slots(pub u32);

#[repr(C)]
#[derive(Clone, Copy)]
pub struct Packets(pub u64);

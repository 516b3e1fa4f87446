// What a call is refused for. Each refusal has the number by which the documents and C know it.
ghost use Rattle.std.specs.Prelude.{◌≡◌};
ghost use Rattle.orders.specs.Answered.{refusal_number, number_given};

#[derive(Clone, Copy, Debug, PartialEq, Eq)]
pub enum Refusal {
    // The last window L of a table is not 1 to 64.
    LastWindow = 1,
    // f(0) is not 0.
    FirstEntry = 2,
    // An entry above 1,000,000.
    EntryTooLarge = 3,
    // An entry below the one before.
    EntryFalls = 4,
    // A window above 4,160.
    WindowTooFar = 5,
    // A delay limit that is neither 0 to 64 nor none.
    DelayLimit = 6,
    // A buffer limit that is neither 0 to 1,000,000 nor none.
    BufferLimit = 7,
    // More than 1,000,000 packets in a slot.
    TooManyPackets = 8,
    // 1,000,000 slots already taken.
    NoSlotLeft = 9,
    // More than 4,096 slots.
    TooManySlots = 10,
    // A lent list of another length than the call asks for.
    ListLength = 11,
    // A file of fewer than 20 bytes.
    FileTooShort = 12,
    // A file of another length than its numbers ask for.
    FileLength = 13,
    // A burst's slot is 0, above T, or not above the one before.
    BurstSlot = 14,
    // Half a profile's entries are not 1 to 4 buckets, or they are odd in number.
    BucketCount = 15,
    // A rate or a burst above 1,000,000.
    RateOrBurst = 16,
    // The stages of a path are not 1 to 4.
    StageCount = 17,
    // A slot above the trace's length.
    SlotBeyondTrace = 18,
    // An entry on or below a square's diagonal is not 0.
    BelowDiagonal = 19,
    // A trace that reaches beyond a square.
    BeyondSquare = 20,
    // The streams of a port are not 1 to 8, or its slots above 256.
    PortSize = 21,
    // A deadline above 64.
    Deadline = 22,
    // Both limits are none.
    NoLimit = 23,
    // A short trace of more than five slots.
    NotShort = 24,
}

impl Refusal {
    #[tactic(auto, unfolding(crate::specs::Answered::refusal_number))]
    pub fn number(self) -> u32
        ensures { result ≡ refusal_number self }
    {
        self as u32
    }
}

// The number of what a call answers, 0 where it refuses nothing.
#[tactic(auto, unfolding(crate::specs::Answered::number_given))]
pub fn number_given(answer: Result<(), Refusal>) -> u32
    ensures { result ≡ number_given answer }
{
    match answer {
        Ok(()) => 0,
        Err(refusal) => refusal.number(),
    }
}

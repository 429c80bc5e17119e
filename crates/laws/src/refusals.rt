// The refusals of the documents (document 01, "Refused because of the input" and "Refused because of the state";
// document 02), by the names that include/abr.h gives them, with the documents' numbers.
ghost use Rattle.std.specs.Prelude.{◌≡◌};
ghost use Rattle.laws.specs.Refusals.{number, refusal_or_0};

#[derive(Clone, Copy, Debug, PartialEq, Eq)]
pub enum Refusal {
    // Cell or buffer is not 53 octets.
    Length = 1,

    // Octet 5 is wrong.
    HeaderCheck = 2,

    // Payload type is 4, 5 or 7.
    PayloadType = 4,

    // CRC-10 is wrong.
    Crc = 5,

    // Protocol is not 1.
    Protocol = 6,

    // Parameter, field, address or rate code is out of range.
    Range = 7,

    // Time is over 2^62.
    Time = 8,

    // Level is over 2 or rate is above the largest.
    TooLarge = 9,

    // VCI is under 32.
    LowVci = 10,

    // Connection is not open.
    NotOpen = 11,

    // Connection is already open.
    AlreadyOpen = 12,

    // As many connections are open as a table holds.
    Full = 13,

    // Time is before the last accepted open, slot, made or out-of-rate cell.
    TimeBackward = 14,

    // Waiting data would pass 65,535 cells.
    TooMuchData = 15,

    // Congestion level is 0.
    NotCongested = 16,

    // Less than 100 ms since the last cell made on this connection.
    MadeTooSoon = 17,

    // Less than 100 ms since the last out-of-rate cell on this connection.
    OutOfRateTooSoon = 18,

    // Reserved bit of a rate code is set.
    ReservedBit = 19,

    // Not a rate: not a number, infinite, below 0, between 0 and 1, or 2^32 and more.
    Double = 20,

    // Over 1,024 demands.
    TooManyDemands = 21,

    // A demand is above the largest rate.
    DemandTooLarge = 22,

    // A number of a trace is not in shortest form or over 64 bits.
    TraceNumber = 23,

    // Trace is empty or ends inside a record.
    TraceEnd = 24,

    // N, Trm number, kind, rate or summed time of a trace is out of range.
    TraceRange = 25,

    // 256 members are in the engine.
    MembersFull = 26,

    // Pair is already a member of its path.
    AlreadyMember = 27,

    // Path is open, but the VCI is no member of it.
    NotAMember = 28,

    // TBE is 0 or over 16,777,215.
    Tbe = 29,

    // FRTT is over 16,700,000.
    Frtt = 30,
}

impl Refusal {
    // The document's number, as a caller in C gets it.
    pub fn number(self) -> u32
        ensures { result ≡ number self }
    {
        self as u32
    }
}

// What a call returns that answers nothing else: the number of the refusal, and 0 if there is none.
pub fn refusal_or_0(r: Result<(), Refusal>) -> u32
    ensures { result ≡ refusal_or_0 r }
{
    match r {
        Ok(()) => 0,
        Err(refusal) => refusal.number(),
    }
}

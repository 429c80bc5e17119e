// The largest rate and the latest time (document 01, "Units and the 16-bit rate code").

// In units of 1/512 cell per second.
pub const LARGEST_RATE: u64 = 2196875771904;

// In nanoseconds, 2^62.
pub const LATEST_TIME: u64 = 4611686018427387904;

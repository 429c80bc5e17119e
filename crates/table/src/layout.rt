// Where the words of a table stand in the lent memory, and what a word holds. All zero is the empty table. The names
// are those of specs/Layout.antt.
use cell::name::{NO_NAME, VCIS};

// How many connections can be open, and how many levels of matches stand above them in the tournament.
pub const CAPACITY: usize = 1024;

pub const LEVELS: u32 = 10;

// The header: the level, the last accepted time, zeros, the bits of the entries in use, every 64th word of the
// directory of names, every 8th, the directory itself, and the winners of the tournament, two words a place. By the
// zeros the 64th words end with a pair of lines of eight words.
pub const LEVEL: usize = 0;

pub const LAST: usize = 1;

pub const GROUPS: usize = 16;

pub const SPARE: usize = (16 - (2 + 2 * GROUPS) % 16) % 16;

pub const USED: usize = 2 + SPARE;

pub const SAMPLES: usize = USED + GROUPS;

pub const FINER: usize = SAMPLES + GROUPS;

pub const DIRECTORY: usize = FINER + 8 * GROUPS;

pub const NODES: usize = DIRECTORY + CAPACITY;

// A record for each entry, three lines of eight words. In the first stands what a data cell needs: the ready key, the
// identity, what waits at the destination, the allowed rate, the queue and the pace. The second has the rest of the
// source and what the open fixed, the third the waiting payload and two instants.
pub const RECORDS: usize = NODES + 2 * CAPACITY;

pub const RECORD_WIDTH: usize = 24;

pub const IDENTITY: usize = 1;

pub const DESTINATION: usize = 2;

pub const PACED: usize = 4;

pub const OUT_OF_RATE: usize = 23;

// Behind the records the members of paths, a word each.
pub const MEMBERS: usize = RECORDS + CAPACITY * RECORD_WIDTH;

pub const MEMBER_CAPACITY: usize = 256;

pub const WORDS: usize = MEMBERS + MEMBER_CAPACITY;

// Two numbers in one word have 32 bits each.
pub const HALF: u64 = 4294967296;

// A number in a word is brought below one of these: an instant, the count k, the data that waits on a connection, a
// name, a VCI.
pub const INSTANT_LIMIT: u64 = 9223372036854775808;

pub const COUNT_LIMIT: u64 = 32768;

pub const QUEUE_LIMIT: u64 = 16777216;

pub const NAME_LIMIT: u64 = NO_NAME as u64;

pub const VCI_LIMIT: u64 = VCIS as u64;

// n stands above the name in eight bits; r, d and c have sixteen each.
pub const N_LIMIT: u64 = 256;

pub const FACTOR_LIMIT: u64 = 65536;

// The data that waits on a member, in the low bits of its word.
pub const MEMBER_LIMIT: u64 = 65536;

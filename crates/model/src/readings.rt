// What the calls that leave the table return.
use connection::parts::Change;

// A connection's allowed rate, and those before and after the last backward cell (document 01, "Slots"; document 02,
// L9).
#[derive(Clone, Copy)]
pub struct Allowed {
    pub acr: u64,
    pub change: Change,
}

// The rate codes of a contract, as the open gave them (document 02, L8).
#[derive(Clone, Copy)]
pub struct Codes {
    pub pcr: u32,
    pub mcr: u32,
    pub icr: u32,
}

// A member of a path, and the cells that wait on it.
#[derive(Clone, Copy)]
pub struct Member {
    pub name: u32,
    pub waiting: u32,
}

// How many connections are open and how many members there are, the congestion level, and the last accepted time.
#[derive(Clone, Copy)]
pub struct Totals {
    pub connections: u32,
    pub members: u32,
    pub level: u32,
    pub last: u64,
}

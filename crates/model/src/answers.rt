// What the calls that change the table return where nothing refuses them (document 01, "Slots"; document 02, L4, L12
// and L13). Where a call says only how many comparisons it made in the tournament, that is a number alone.
use connection::kind::Kind;

// A close, or the removal of a member: the data cells are those that waited.
#[derive(Clone, Copy)]
pub struct Closed {
    pub comparisons: u32,
    pub cells: u64,
}

// An open, with the leaf that it took.
#[derive(Clone, Copy)]
pub struct Opened {
    pub comparisons: u32,
    pub leaf: u32,
}

// A received cell. The kind of a backward cell is that of the turned one that it was; acr is the allowed rate
// afterwards.
#[derive(Clone, Copy)]
pub struct Received {
    pub comparisons: u32,
    pub kind: Kind,
    pub name: u32,
    pub leaf: u32,
    pub acr: u64,
}

// The cell of a slot. For a data cell of a path the name is the member's. A cell that the connection made itself has
// the kind of a turned one, and made says which it is.
#[derive(Clone, Copy)]
pub struct Sent {
    pub name: u32,
    pub kind: Kind,
    pub acr: u64,
    pub comparisons: u32,
    pub leaf: u32,
    pub acr_before: u64,
    pub made: bool,
}

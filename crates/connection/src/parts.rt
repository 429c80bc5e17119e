// The parts of a connection (document 01, "Opening", "Turning cells round" and "Slots"; document 02, L9 and L13).
ghost use Rattle.std.specs.Prelude.{◌≡◌};
ghost use Rattle.connection.specs.Parts.{fresh, with_rate, with_pace, with_unanswered, with_queue, with_change, with_destination, with_out_of_rate};

use cell_payload::payload::Payload;
use rate_moves::moves::Rate;
use rate_params::params::{Params, trm_time};

// The cells sent: none yet; or the instants of the last cell and of the last forward cell, the cells k since then, and
// whether a turned or made cell is among them.
// An enum and no Option of a struct: its variants name the two states, and None would not say that no cell was sent.
#[derive(Clone, Copy)]
pub enum Pace {
    Unsent,
    Running {
        sent: u64,
        forward: u64,
        k: u32,
        turned: bool,
    },
}

// The most data cells that wait on a channel, or on a member of a path (refusal 15).
pub const WAITING_MOST: u32 = 65535;

// The most that the count Y comes to.
pub const UNANSWERED_MOST: u32 = 8388608;

// The data cells that wait: on a path those of all its members. Of a path also the VCI of the member that was served
// last, 0 before any (document 02, L13).
// No Option of a VCI: the word of the table and the definitions turn and with_served have 0 for none.
#[derive(Clone, Copy)]
pub struct Queue {
    pub cells: u32,
    pub served: u32,
}

// The allowed rate before the last backward cell and after it; before the first one both are the initial rate used
// (document 02, L9 and L14).
#[derive(Clone, Copy)]
pub struct Change {
    pub before: u64,
    pub after: u64,
}

// The backward cells that the connection makes itself (document 02, L1): the level at which the one that waits was
// made, 0 if none waits, and the instant of the last making, if there was one.
// No Option of a level: the words of the table and the definitions MadeValidAt and backward_waits have 0 for none.
#[derive(Clone, Copy)]
pub struct Made {
    pub level: u32,
    pub last: Option<u64>,
}

// What the destination keeps: the saved EFCI, the one turned cell that waits, if any, and the cells made.
#[derive(Clone, Copy)]
pub struct Destination {
    pub efci: bool,
    pub turned: Option<Payload>,
    pub made: Made,
}

// trm is Trm in nanoseconds, looked up once, at the open; unanswered is the count Y; out_of_rate is the instant of the
// last out-of-rate forward cell, if there was one (document 02, L5).
// No ghost field holds InRange: the definitions build connections at every time, also beyond the range.
#[derive(Clone, Copy)]
pub struct Connection {
    pub name: u32,
    pub opened: u64,
    pub trm: u64,
    pub rate: Rate,
    pub pace: Pace,
    pub unanswered: u32,
    pub queue: Queue,
    pub change: Change,
    pub destination: Destination,
    pub out_of_rate: Option<u64>,
}

impl Connection {
    // A connection as it starts.
    #[tactic(auto, unfolding(crate::specs::Parts::fresh))]
    pub fn fresh(name: u32, time: u64, params: Params) -> Connection
        ensures { result ≡ fresh name time params }
    {
        let rate = Rate::opened(params);
        Connection {
            name,
            opened: time,
            trm: trm_time(params.trm),
            rate,
            pace: Pace::Unsent,
            unanswered: 0,
            queue: Queue {
                cells: 0,
                served: 0,
            },
            change: Change {
                before: rate.acr,
                after: rate.acr,
            },
            destination: Destination {
                efci: false,
                turned: None,
                made: Made {
                    level: 0,
                    last: None,
                },
            },
            out_of_rate: None,
        }
    }

    // The same connection with one part changed.
    pub fn with_rate(mut self, rate: Rate) -> Connection
        ensures { result ≡ with_rate self rate }
    {
        self.rate = rate;
        self
    }

    pub fn with_pace(mut self, pace: Pace) -> Connection
        ensures { result ≡ with_pace self pace }
    {
        self.pace = pace;
        self
    }

    pub fn with_unanswered(mut self, unanswered: u32) -> Connection
        ensures { result ≡ with_unanswered self unanswered }
    {
        self.unanswered = unanswered;
        self
    }

    pub fn with_queue(mut self, queue: Queue) -> Connection
        ensures { result ≡ with_queue self queue }
    {
        self.queue = queue;
        self
    }

    pub fn with_change(mut self, change: Change) -> Connection
        ensures { result ≡ with_change self change }
    {
        self.change = change;
        self
    }

    pub fn with_destination(mut self, destination: Destination) -> Connection
        ensures { result ≡ with_destination self destination }
    {
        self.destination = destination;
        self
    }

    pub fn with_out_of_rate(mut self, last: Option<u64>) -> Connection
        ensures { result ≡ with_out_of_rate self last }
    {
        self.out_of_rate = last;
        self
    }
}

// The data that waits (document 01, "Opening" and "Slots"; document 02, L13).
ghost use Rattle.std.specs.Prelude.{◌≡◌, ◌+◌, ◌<◌, ◌^◌};
ghost use Rattle.std.proofs.Math.Option.{some};
ghost use Rattle.connection.specs.Parts.{waiting, with_queue, dequeued};
ghost use Rattle.connection.specs.Source.{offered, sent_data, with_served};
ghost use Rattle.connection.specs.Range.{InRange};

use cell::name::VCIS;
use connection::pace::paced;
use connection::parts::{Connection, Queue};

// An offer adds to the waiting data.
#[tactic(auto, unfolding(connection::specs::Source::offered))]
pub fn offered(n: u32, c: Connection) -> Connection
    requires { waiting c.queue + n < 2 ^ 32 }
    ensures { result ≡ offered n c }
{
    c.with_queue(Queue {
        cells: c.queue.cells + n,
        ..c.queue
    })
}

// The removal of a member takes the data that waited on it from its path (document 02, L13).
pub fn dequeued(n: u32, c: Connection) -> Connection
    ensures { result ≡ with_queue c (dequeued n c.queue) }
{
    c.with_queue(Queue {
        cells: c.queue.cells.saturating_sub(n),
        ..c.queue
    })
}

#[tactic(auto, unfolding(connection::specs::Source::sent_data))]
pub fn sent_data(t: u64, c: Connection) -> Connection
    requires { InRange c }
    ensures { result ≡ sent_data t c }
{
    let queue = Queue {
        cells: c.queue.cells.saturating_sub(1),
        ..c.queue
    };
    c.with_pace(paced(t, false, c.pace)).with_queue(queue)
}

// A path keeps the VCI of the member that was served last (document 02, L13).
#[tactic(auto, unfolding(connection::specs::Source::with_served, connection_members::specs::Turn::last_after))]
pub fn with_served(member: u32, c: Connection) -> Connection
    ensures { result ≡ with_served (some member) c }
{
    c.with_queue(Queue {
        served: member % VCIS,
        ..c.queue
    })
}

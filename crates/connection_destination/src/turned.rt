// What sending the turned or made cell that waits makes of a connection (document 01, "Slots"; document 02, L1).
ghost use Rattle.std.specs.Prelude.{◌≡◌};
ghost use Rattle.connection.specs.Destination.{made_left, sent_turned};
ghost use Rattle.connection.specs.Range.{InRange};

use cell_payload::payload::Payload;
use connection::pace::paced;
use connection::parts::{Connection, Destination, Made};

// The turned cell goes before the made one.
#[tactic(auto, unfolding(connection::specs::Destination::made_left))]
fn made_left(w: Option<Payload>, m: Made) -> Made
    ensures { result ≡ made_left w m }
{
    match w {
        None => Made { level: 0, ..m },
        Some(_) => m,
    }
}

#[tactic(auto, unfolding(connection::specs::Destination::sent_turned))]
pub fn sent_turned(t: u64, c: Connection) -> Connection
    requires { InRange c }
    ensures { result ≡ sent_turned t c }
{
    let left = Destination {
        turned: None,
        made: made_left(c.destination.turned, c.destination.made),
        ..c.destination
    };
    c.with_pace(paced(t, true, c.pace)).with_destination(left)
}

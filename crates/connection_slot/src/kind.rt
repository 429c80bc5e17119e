// What kind of cell a slot sends (document 01, "Slots").
ghost use Rattle.std.specs.Prelude.{◌≡◌};
ghost use Rattle.connection.specs.Kind.{is_forward, is_turned, kind_at};
ghost use Rattle.connection.specs.Range.{InRange};

use crate::ready::{backward_waits, last_before};
use connection::kind::Kind;
use connection::parts::{Connection, Pace};

#[tactic(auto, unfolding(connection::specs::Kind::is_forward, connection::specs::Ready::last_before, rate_params::specs::Forward::forward_due))]
fn is_forward(t: u64, c: Connection) -> bool
    requires { InRange c }
    ensures { result ≡ is_forward t c c.pace }
{
    match c.pace {
        Pace::Unsent => true,
        Pace::Running { forward, k, .. } => {
            last_before(c, k) || (k >= 2 && forward + c.trm <= t)
        }
    }
}

#[tactic(auto, unfolding(connection::specs::Kind::is_turned))]
fn is_turned(c: Connection) -> bool
    ensures { result ≡ is_turned c c.pace }
{
    match c.pace {
        Pace::Unsent => false,
        Pace::Running { turned, .. } => {
            backward_waits(c.destination) && (!turned || c.queue.cells == 0)
        }
    }
}

#[tactic(auto, unfolding(connection::specs::Kind::kind_at))]
pub fn kind_at(t: u64, c: Connection) -> Kind
    requires { InRange c }
    ensures { result ≡ kind_at t c }
{
    if is_forward(t, c) {
        Kind::Forward
    } else if is_turned(c) {
        Kind::Turned
    } else {
        Kind::Data
    }
}

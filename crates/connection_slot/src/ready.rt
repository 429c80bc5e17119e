// When a connection may send (document 01, "Slots").
ghost use Rattle.std.specs.Prelude.{◌≡◌};
ghost use Rattle.connection.specs.Ready.{backward_waits, any_waits, last_before, ready_from, ready_instant};
ghost use Rattle.connection.specs.Range.{InRange, InstantBelow};

use connection::parts::{Connection, Destination, Pace};
use rate::gap::gap;

// A turned or a made cell waits.
#[tactic(auto, unfolding(connection::specs::Ready::backward_waits, connection::specs::Ready::waits))]
pub fn backward_waits(d: Destination) -> bool
    ensures { result ≡ backward_waits d }
{
    d.turned.is_some() | (0 < d.made.level)
}

// Data, a turned or a made cell waits.
#[tactic(auto, unfolding(connection::specs::Ready::any_waits))]
pub fn any_waits(c: Connection) -> bool
    ensures { result ≡ any_waits c }
{
    0 < c.queue.cells || backward_waits(c.destination)
}

// k = Nrm − 1. No k of 32 bits is as large as 2^n − 1 for an n of 64 or more, which only a damaged table holds.
pub fn last_before(c: Connection, k: u32) -> bool
    ensures { result ≡ last_before c k }
{
    let n = c.rate.params.n;
    n < 64 && k as u64 == (1u64 << n) - 1
}

// Of a connection whose allowed rate is not 0.
#[tactic(auto, unfolding(connection::specs::Ready::ready_from))]
fn ready_from(c: Connection) -> Option<u64>
    requires { InRange c }
    ensures equal { result ≡ ready_from c c.pace }
    ensures below { InstantBelow result }
{
    match c.pace {
        Pace::Unsent => any_waits(c).then_some(c.opened),
        Pace::Running {
            sent,
            forward,
            k,
            ..
        } => {
            let due = sent + gap(c.rate.acr);
            if any_waits(c) || last_before(c, k) {
                Some(due)
            } else if k < 2 {
                None
            } else {
                Some(due.max(forward + c.trm))
            }
        }
    }
}

// At an allowed rate of 0 it is never ready (document 02, L5).
#[tactic(auto, unfolding(connection::specs::Ready::ready_instant))]
pub fn ready_instant(c: Connection) -> Option<u64>
    requires { InRange c }
    ensures equal { result ≡ ready_instant c }
    ensures below { InstantBelow result }
{
    if c.rate.acr == 0 { None } else { ready_from(c) }
}

// What a received data cell or forward cell makes of its connection (document 01, "Turning cells round").
ghost use Rattle.std.specs.Prelude.{◌≡◌};
ghost use Rattle.cell.specs.Fields.{CrcMatches};
ghost use Rattle.connection.specs.Destination.{after_data_cell, waiting_ci, after_forward_payload};

use cell_payload::payload::Payload;
use cell_turn::turn::turn;
use connection::parts::{Connection, Destination};

// The latest data cell decides the saved EFCI.
#[tactic(auto, unfolding(connection::specs::Destination::after_data_cell))]
pub fn after_data_cell(efci: bool, c: Connection) -> Connection
    ensures { result ≡ after_data_cell efci c }
{
    c.with_destination(Destination {
        efci,
        ..c.destination
    })
}

// The CI of a turned cell that waits: octet 7 is the second of its first word.
#[tactic(auto, unfolding(connection::specs::Destination::waiting_ci))]
fn waiting_ci(w: Option<Payload>) -> bool
    ensures { result ≡ waiting_ci w }
{
    w.is_some_and(|p| p.a / 0x20000000000000 % 2 == 1)
}

// A forward cell, whose CRC-10 was found right, becomes the one waiting turned cell, from the words of its payload; the
// saved EFCI is used up.
#[tactic(auto, unfolding(connection::specs::Destination::after_forward_payload, connection::specs::Destination::mark_kept))]
pub fn after_forward_payload(level: u32, p: Payload, c: Connection) -> Connection
    requires { CrcMatches p }
    ensures { result ≡ after_forward_payload level p c }
{
    let kept = c.destination.efci | waiting_ci(c.destination.turned);
    c.with_destination(Destination {
        efci: false,
        turned: Some(turn(p, level, kept)),
        ..c.destination
    })
}

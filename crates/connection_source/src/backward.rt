// Backward cells: what one that is received makes of its connection (document 01, "Four moves of the allowed rate").
ghost use Rattle.std.specs.Prelude.{◌≡◌};
ghost use Rattle.connection.specs.Source.{after_backward_cell};

use crate::feedback::with_feedback;
use cell::fields::Fields;
use connection::parts::{Change, Connection};
use rate::code::rate_of;

// Feedback, and what it changed (document 02, L9); the answer of a destination, BN 0, clears Y as well.
#[tactic(auto, unfolding(connection::specs::Source::after_backward_cell))]
pub fn after_backward_cell(f: Fields, c: Connection) -> Connection
    ensures { result ≡ after_backward_cell f c }
{
    let fed = with_feedback(c.rate, f.ci == 1, f.ni == 1, rate_of(f.er));
    let moved = c.with_rate(fed).with_change(Change {
        before: c.rate.acr,
        after: fed.acr,
    });
    let cleared = moved.with_unanswered(0);
    if f.bn == 0 { cleared } else { moved }
}

// Forward out-of-rate cells (document 02, L5).
ghost use Rattle.std.specs.Prelude.{◌≡◌};
ghost use Rattle.connection.specs.Source.{after_out_of_rate};

use connection::parts::Connection;

// One at t changes nothing but its own instant.
#[tactic(auto, unfolding(connection::specs::Source::after_out_of_rate))]
pub fn after_out_of_rate(t: u64, c: Connection) -> Connection
    ensures { result ≡ after_out_of_rate t c }
{
    c.with_out_of_rate(Some(t))
}

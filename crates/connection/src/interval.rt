// The least time between two made cells of a connection, and between two of its out-of-rate cells (document 02, L1 and
// L5).
ghost use Rattle.std.specs.Prelude.{◌≡◌};
ghost use Rattle.connection.specs.Interval.{rested};
ghost use Rattle.connection.specs.Range.{InstantInRange};

// In nanoseconds.
const INTERVAL: u64 = 100000000;

// Whether enough time has passed at t since the last one.
#[tactic(auto, unfolding(crate::specs::Interval::rested))]
pub fn rested(t: u64, last: Option<u64>) -> bool
    requires { InstantInRange last }
    ensures { result ≡ rested t last }
{
    match last {
        None => true,
        Some(m) => m + INTERVAL <= t,
    }
}

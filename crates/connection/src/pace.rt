// One more cell of a connection (document 01, "Slots").
ghost use Rattle.std.specs.Prelude.{◌≡◌};
ghost use Rattle.connection.specs.Pace.{paced};
ghost use Rattle.connection.specs.Range.{PaceInRange};

use crate::parts::Pace;

// One more cell at t that is no forward cell.
#[tactic(auto, unfolding(crate::specs::Pace::paced))]
pub fn paced(t: u64, turns: bool, pace: Pace) -> Pace
    requires { PaceInRange pace }
    ensures { result ≡ paced t turns pace }
{
    match pace {
        Pace::Unsent => Pace::Unsent,
        Pace::Running {
            forward,
            k,
            turned,
            ..
        } => Pace::Running {
            sent: t,
            forward,
            k: k + 1,
            turned: turned | turns,
        },
    }
}

// The port: the share of its demands, and a passing cell held to it (document 02, L10).
ghost use Rattle.std.specs.Prelude.{◌≡◌};
ghost use Rattle.laws.specs.Refusals.{refusal_or_0};
ghost use Rattle.port.specs.Limit.{passed};
ghost use Rattle.port.specs.Port.{port};

use crate::limit::limit;
use cell_read::read::refusal;
use laws::refusals::Refusal;
use port_share::share::fair_share;

// Refusals 21, 22, and then those of reading a cell.
pub fn port(capacity: u64, demands: &[u64], cell: &mut [u8]) -> Result<(), Refusal>
    ensures { passed (refusal_or_0 result) cell.new ≡ port capacity demands.now cell.old }
{
    match fair_share(capacity, demands)? {
        None => refusal(cell),
        Some(rate) => limit(rate, cell),
    }
}

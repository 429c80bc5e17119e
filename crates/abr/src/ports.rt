// An explicit-rate port, without a table (document 02, L10).
ghost use Rattle.std.specs.Prelude.{◌≡◌};
ghost use Rattle.port_share.specs.Share.{fair_share};
ghost use Rattle.port.specs.Limit.{passed, limit};
ghost use Rattle.port.specs.Port.{port};
ghost use Rattle.abr_answers.specs.Shares.{share_of};

use abr_answers::shares::AbrShare;
use laws::refusals::refusal_or_0;
use port::limit::limit;
use port::port::port;
use port_share::share::fair_share;

// Refusals 21, 22.
pub fn abr_fair_share(capacity: u64, demands: &[u64]) -> AbrShare
    ensures { result ≡ share_of (fair_share capacity demands.now) }
{
    AbrShare::from(fair_share(capacity, demands))
}

// Refusals as for abr_read.
pub fn abr_limit(rate: u64, cell: &mut [u8]) -> u32
    ensures { passed result cell.new ≡ limit rate cell.old }
{
    refusal_or_0(limit(rate, cell))
}

// Refusals 21, 22, then as for abr_read.
pub fn abr_port(capacity: u64, demands: &[u64], cell: &mut [u8]) -> u32
    ensures { passed result cell.new ≡ port capacity demands.now cell.old }
{
    refusal_or_0(port(capacity, demands, cell))
}

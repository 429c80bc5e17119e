// An explicit-rate port, without a table.
ghost use Rattle.std.specs.Prelude.{◌≡◌};
ghost use Rattle.port_share.specs.Share.{fair_share};
ghost use Rattle.port.specs.Limit.{passed, limit};
ghost use Rattle.port.specs.Port.{port};
ghost use Rattle.abr_answers.specs.Shares.{share_of};

use abr_answers::shares::AbrShare;

#[unsafe(no_mangle)]
pub extern "C" fn abr_fair_share(capacity: u64, demands: &[u64]) -> AbrShare
    ensures { result ≡ share_of (fair_share capacity demands.now) }
{
    abr::ports::abr_fair_share(capacity, demands)
}

#[unsafe(no_mangle)]
pub extern "C" fn abr_limit(rate: u64, cell: &mut [u8]) -> u32
    ensures { passed result cell.new ≡ limit rate cell.old }
{
    abr::ports::abr_limit(rate, cell)
}

#[unsafe(no_mangle)]
pub extern "C" fn abr_port(capacity: u64, demands: &[u64], cell: &mut [u8]) -> u32
    ensures { passed result cell.new ≡ port capacity demands.now cell.old }
{
    abr::ports::abr_port(capacity, demands, cell)
}

// Rate codes and the house set, without a table.
ghost use Rattle.std.specs.Prelude.{◌≡◌};
ghost use Rattle.rate.specs.Code.{coded};
ghost use Rattle.rate_params.specs.Params.{house_set};
ghost use Rattle.abr_answers.specs.Codes.{coded_of, rated_of};

use abr_answers::codes::{AbrCoded, AbrRated};
use rate_params::params::Params;

#[unsafe(no_mangle)]
pub extern "C" fn abr_code(rate: u64) -> AbrCoded
    ensures { result ≡ coded_of (coded rate) }
{
    abr::codes::abr_code(rate)
}

#[unsafe(no_mangle)]
pub extern "C" fn abr_rate(code: u32) -> AbrRated
    ensures { result ≡ rated_of code }
{
    abr::codes::abr_rate(code)
}

#[unsafe(no_mangle)]
pub extern "C" fn abr_house(pcr: u32, mcr: u32, icr: u32) -> Params
    ensures { result ≡ house_set pcr mcr icr }
{
    abr::codes::abr_house(pcr, mcr, icr)
}

// Rate codes and the house set, without a table
// (document 01, "Units and the 16-bit rate code" and "Opening"; document 02, L7).
ghost use Rattle.std.specs.Prelude.{◌≡◌};
ghost use Rattle.rate.specs.Code.{coded};
ghost use Rattle.rate_params.specs.Params.{house_set};
ghost use Rattle.abr_answers.specs.Codes.{coded_of, rated_of};

use abr_answers::codes::{AbrCoded, AbrRated, rate_taken};
use rate::code::code_of;
use rate_params::params::Params;

// Refusal 9.
pub fn abr_code(rate: u64) -> AbrCoded
    ensures { result ≡ coded_of (coded rate) }
{
    AbrCoded::from(code_of(rate))
}

// Refusal 7 over 16 bits, then 19 where bit 15 is set.
pub fn abr_rate(code: u32) -> AbrRated
    ensures { result ≡ rated_of code }
{
    AbrRated::from(rate_taken(code))
}

// The house set around three rate codes. Nothing is refused here: an open judges the result.
pub fn abr_house(pcr: u32, mcr: u32, icr: u32) -> Params
    ensures { result ≡ house_set pcr mcr icr }
{
    Params::house(pcr, mcr, icr)
}

// The code of a code's own rate (document 01, "Units and the 16-bit rate code").
ghost use Rattle.std.specs.Prelude.{◌≡◌};
ghost use Rattle.rate.specs.Code.{rate_of, code_of};

use crate::code::{NZ, RESERVED};

// Its low 15 bits, and 0 without nz, whatever number stands where a code should.
#[tactic(auto, using(crate::proofs::Codes::canonical_set, crate::proofs::Codes::canonical_clear))]
pub fn canonical(code: u32) -> u32
    ensures { result ≡ code_of (rate_of code) }
{
    if code / NZ % 2 == 1 {
        code % RESERVED
    } else {
        0
    }
}

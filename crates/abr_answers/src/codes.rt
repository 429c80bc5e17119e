// What coding a rate, and taking the rate of a code, return (document 01, "Units and the 16-bit rate code").
ghost use Rattle.std.specs.Prelude.{◌≡◌};
ghost use Rattle.abr_answers.specs.Codes.{coded_of, rated_as, rate_taken};

use laws::refusals::Refusal;
use rate::code::{SIXTEEN_BITS_MOST, rate_of, reserved_clear};

#[repr(C)]
#[derive(Clone, Copy)]
pub struct AbrCoded {
    pub refusal: u32,
    pub code: u32,
}

impl From<Result<u32, Refusal>> for AbrCoded {
    ghost from_gives = { λ a r. r ≡ coded_of a };

    fn from(answer: Result<u32, Refusal>) -> AbrCoded {
        match answer {
            Ok(code) => AbrCoded { refusal: 0, code },
            Err(refusal) => AbrCoded {
                refusal: refusal.number(),
                code: 0,
            },
        }
    }
}

#[repr(C)]
#[derive(Clone, Copy)]
pub struct AbrRated {
    pub refusal: u32,
    pub reserved: u32,
    pub rate: u64,
}

impl From<Result<u64, Refusal>> for AbrRated {
    ghost from_gives = { λ a r. r ≡ rated_as a };

    fn from(answer: Result<u64, Refusal>) -> AbrRated {
        match answer {
            Ok(rate) => AbrRated {
                refusal: 0,
                reserved: 0,
                rate,
            },
            Err(refusal) => AbrRated {
                refusal: refusal.number(),
                reserved: 0,
                rate: 0,
            },
        }
    }
}

// The rate of a code of 16 bits, if bit 15 is clear.
#[tactic(auto, unfolding(laws::specs::Require::require))]
pub fn rate_taken(code: u32) -> Result<u64, Refusal>
    ensures { result ≡ rate_taken code }
{
    if SIXTEEN_BITS_MOST < code {
        return Err(Refusal::Range);
    }
    if !reserved_clear(code) {
        return Err(Refusal::ReservedBit);
    }
    Ok(rate_of(code))
}

// What the share of an explicit-rate port returns (document 02, L10).
ghost use Rattle.std.specs.Prelude.{◌≡◌};
ghost use Rattle.abr_answers.specs.Shares.{share_of};

use laws::refusals::Refusal;
use rate::units::LARGEST_RATE;

// limited 0: no limit, and the largest rate.
#[repr(C)]
#[derive(Clone, Copy)]
pub struct AbrShare {
    pub refusal: u32,
    pub limited: u32,
    pub rate: u64,
}

impl From<Result<Option<u64>, Refusal>> for AbrShare {
    ghost from_gives = { λ a r. r ≡ share_of a };

    fn from(answer: Result<Option<u64>, Refusal>) -> AbrShare {
        match answer {
            Ok(None) => AbrShare {
                refusal: 0,
                limited: 0,
                rate: LARGEST_RATE,
            },
            Ok(Some(rate)) => AbrShare {
                refusal: 0,
                limited: 1,
                rate,
            },
            Err(refusal) => AbrShare {
                refusal: refusal.number(),
                limited: 0,
                rate: 0,
            },
        }
    }
}

// What the calls on a table return (document 01, "Slots"; document 02, L4, L6, L9, L12 and L13).
ghost use Rattle.std.specs.Prelude.{◌≡◌};
ghost use Rattle.model.specs.Returned.{accepted_as, allowed_as, closed_as, done_as};
ghost use Rattle.abr_answers.specs.Calls.{answer_of, closed_of, allowed_of, of_rates};

use laws::refusals::{Refusal, refusal_or_0};
use model::answers::Closed;
use model::readings::Allowed;

// The documents' number for an answer, 0 if it is no refusal, and the comparisons that the call made (document 02, L4).
#[repr(C)]
#[derive(Clone, Copy)]
pub struct AbrAnswer {
    pub refusal: u32,
    pub comparisons: u32,
}

impl From<Result<u32, Refusal>> for AbrAnswer {
    ghost from_gives = { λ a r. r ≡ answer_of (accepted_as a) };

    fn from(answer: Result<u32, Refusal>) -> AbrAnswer {
        match answer {
            Ok(comparisons) => AbrAnswer {
                refusal: 0,
                comparisons,
            },
            Err(refusal) => AbrAnswer {
                refusal: refusal.number(),
                comparisons: 0,
            },
        }
    }
}

// Of a call that makes no comparisons.
impl From<Result<(), Refusal>> for AbrAnswer {
    ghost from_gives = { λ a r. r ≡ answer_of (done_as a) };

    fn from(answer: Result<(), Refusal>) -> AbrAnswer {
        AbrAnswer {
            refusal: refusal_or_0(answer),
            comparisons: 0,
        }
    }
}

// The same of a close, and the data cells that waited (document 02, L12).
#[repr(C)]
#[derive(Clone, Copy)]
pub struct AbrClosed {
    pub refusal: u32,
    pub comparisons: u32,
    pub cells: u64,
}

impl From<Result<Closed, Refusal>> for AbrClosed {
    ghost from_gives = { λ a r. r ≡ closed_of (closed_as a) };

    #[tactic(auto, unfolding(model::specs::Call::closed_cells))]
    fn from(answer: Result<Closed, Refusal>) -> AbrClosed {
        match answer {
            Ok(closed) => AbrClosed {
                refusal: 0,
                comparisons: closed.comparisons,
                cells: closed.cells,
            },
            Err(refusal) => AbrClosed {
                refusal: refusal.number(),
                comparisons: 0,
                cells: 0,
            },
        }
    }
}

#[repr(C)]
#[derive(Clone, Copy)]
pub struct AbrAllowed {
    pub refusal: u32,
    pub reserved: u32,
    pub acr: u64,
    pub change: i64,
}

// The change, new rate minus old, is exact: no rate reaches 2^42 (document 02, L9).
impl From<Option<Allowed>> for AbrAllowed {
    ghost from_gives = { λ a r. r ≡ allowed_of (of_rates (allowed_as a)) };

    fn from(answer: Option<Allowed>) -> AbrAllowed {
        match answer {
            Some(Allowed { acr, change }) => AbrAllowed {
                refusal: 0,
                reserved: 0,
                acr,
                change: (change.after % 4398046511104) as i64
                    - (change.before % 4398046511104) as i64,
            },
            None => AbrAllowed {
                refusal: Refusal::NotOpen.number(),
                reserved: 0,
                acr: 0,
                change: 0,
            },
        }
    }
}

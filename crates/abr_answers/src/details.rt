// What an open, a received cell and a slot return (document 01, "Slots"; document 02, L1, L4, L6 and L13).
ghost use Rattle.std.specs.Prelude.{◌≡◌};
ghost use Rattle.model.specs.Returned.{opened_as, received_as, sent_as};
ghost use Rattle.abr_answers.specs.Details.{opened_of, received_of, sent_nothing, sent_of};

use cell::name::VCIS;
use laws::refusals::Refusal;
use model::answers::{Opened, Received, Sent};

#[repr(C)]
#[derive(Clone, Copy)]
pub struct AbrOpened {
    pub refusal: u32,
    pub comparisons: u32,
    pub leaf: u32,
}

impl From<Result<Opened, Refusal>> for AbrOpened {
    ghost from_gives = { λ a r. r ≡ opened_of (opened_as a) };

    fn from(answer: Result<Opened, Refusal>) -> AbrOpened {
        match answer {
            Ok(Opened { comparisons, leaf }) => AbrOpened {
                refusal: 0,
                comparisons,
                leaf,
            },
            Err(refusal) => AbrOpened {
                refusal: refusal.number(),
                comparisons: 0,
                leaf: 0,
            },
        }
    }
}

// kind 0: refused.
#[repr(C)]
#[derive(Clone, Copy)]
pub struct AbrReceived {
    pub refusal: u32,
    pub comparisons: u32,
    pub kind: u32,
    pub vpi: u32,
    pub vci: u32,
    pub leaf: u32,
    pub acr: u64,
}

impl From<Result<Received, Refusal>> for AbrReceived {
    ghost from_gives = { λ a r. r ≡ received_of (received_as a) };

    fn from(answer: Result<Received, Refusal>) -> AbrReceived {
        match answer {
            Ok(received) => AbrReceived {
                refusal: 0,
                comparisons: received.comparisons,
                kind: received.kind.number(),
                vpi: received.name / VCIS,
                vci: received.name % VCIS,
                leaf: received.leaf,
                acr: received.acr,
            },
            Err(refusal) => AbrReceived {
                refusal: refusal.number(),
                comparisons: 0,
                kind: 0,
                vpi: 0,
                vci: 0,
                leaf: 0,
                acr: 0,
            },
        }
    }
}

// kind 0: an idle slot.
#[repr(C)]
#[derive(Clone, Copy)]
pub struct AbrSent {
    pub refusal: u32,
    pub comparisons: u32,
    pub kind: u32,
    pub vpi: u32,
    pub vci: u32,
    pub leaf: u32,
    pub acr: u64,
    pub acr_before: u64,
    pub made: u32,
    pub reserved: u32,
}

// A slot that sent no cell: the number that C sees, 0 of an idle one.
fn sent_nothing(refusal: u32) -> AbrSent
    ensures { result ≡ sent_nothing refusal }
{
    AbrSent {
        refusal,
        comparisons: 0,
        kind: 0,
        vpi: 0,
        vci: 0,
        leaf: 0,
        acr: 0,
        acr_before: 0,
        made: 0,
        reserved: 0,
    }
}

impl From<Result<Option<Sent>, Refusal>> for AbrSent {
    ghost from_gives = { λ a r. r ≡ sent_of (sent_as a) };

    fn from(answer: Result<Option<Sent>, Refusal>) -> AbrSent {
        match answer {
            Ok(Some(sent)) => AbrSent {
                refusal: 0,
                comparisons: sent.comparisons,
                kind: sent.kind.number(),
                vpi: sent.name / VCIS,
                vci: sent.name % VCIS,
                leaf: sent.leaf,
                acr: sent.acr,
                acr_before: sent.acr_before,
                made: sent.made as u32,
                reserved: 0,
            },
            Ok(None) => sent_nothing(0),
            Err(refusal) => sent_nothing(refusal.number()),
        }
    }
}

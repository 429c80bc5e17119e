// What the judge of a trace returns (document 02, L11).
ghost use Rattle.std.specs.Prelude.{◌≡◌};
ghost use Rattle.abr_answers.specs.Traces.{judged_of};

use laws::refusals::Refusal;
use trace_judge::rules::Broken;

// rule 0: the trace passes, and cell is 0.
#[repr(C)]
#[derive(Clone, Copy)]
pub struct AbrVerdict {
    pub refusal: u32,
    pub rule: u32,
    pub cell: u64,
}

impl From<Result<Option<Broken>, Refusal>> for AbrVerdict {
    ghost from_gives = { λ v r. r ≡ judged_of v };

    fn from(v: Result<Option<Broken>, Refusal>) -> AbrVerdict {
        match v {
            Err(refusal) => AbrVerdict {
                refusal: refusal.number(),
                rule: 0,
                cell: 0,
            },
            Ok(None) => AbrVerdict {
                refusal: 0,
                rule: 0,
                cell: 0,
            },
            Ok(Some(broken)) => AbrVerdict {
                refusal: 0,
                rule: broken.rule,
                cell: broken.cell,
            },
        }
    }
}

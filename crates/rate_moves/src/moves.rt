// The rate record by value and the four moves of its allowed rate (document 01, "Four moves of the allowed rate").
// No method has a requires: each form below holds for every u64, so that a table with any content is safe.
ghost use Rattle.std.specs.Prelude.{◌≡◌, ◌+◌, ◌/◌, ◌^◌, min};
ghost use Rattle.rate_moves.specs.Moves.{moved, opened, first_cell, idle, unanswered, reduced_by, rate_by_marks, feedback};

use rate_params::params::Params;

#[derive(Clone, Copy)]
pub struct Rate {
    pub acr: u64,
    pub params: Params,
}

// The part 1/2^k of x, rounded down, for every k.
#[tactic(auto, using(crate::proofs::Cuts::part_none))]
fn part(k: u32, x: u64) -> u64
    ensures { result ≡ x / 2 ^ k }
{
    x.checked_shr(k).unwrap_or(0)
}

// x less its part 1/2^k, rounded down: what is taken off is the part of x - 1, rounded down, and 1 more.
#[tactic(auto, using(crate::proofs::Cuts::part_le, crate::proofs::Cuts::cut_is))]
fn reduced_by(k: u32, x: u64) -> u64
    ensures { result ≡ reduced_by k x }
{
    let before = x.saturating_sub(1);
    before - part(k, before)
}

// a and a part of the peak, up to the peak. No peak is above 2^64 - 1, where the sum stays.
fn raised(r: u32, peak: u64, a: u64) -> u64
    ensures { result ≡ min peak (a + peak / 2 ^ r) }
{
    peak.min(a.saturating_add(part(r, peak)))
}

impl Rate {
    // The record of a connection as it is opened.
    pub fn opened(params: Params) -> Rate
        ensures { result ≡ opened params }
    {
        Rate {
            acr: params.initial_used(),
            params,
        }
    }

    // The same parameters at another allowed rate.
    fn moved(self, acr: u64) -> Rate
        ensures { result ≡ moved self acr }
    {
        Rate { acr, ..self }
    }

    #[tactic(auto, unfolding(crate::specs::Moves::first_cell))]
    pub fn first_cell(self) -> Rate
        ensures { result ≡ first_cell self }
    {
        self.moved(self.acr.min(self.params.initial_used()))
    }

    // `passed` is the time since the last forward cell.
    #[tactic(auto, unfolding(crate::specs::Moves::idle, crate::specs::Moves::first_cell))]
    pub fn idle(self, passed: u64) -> Rate
        ensures { result ≡ idle passed self }
    {
        if (self.params.adtf as u64) * 10000000 < passed {
            self.first_cell()
        } else {
            self
        }
    }

    // `y` forward cells are unanswered.
    #[tactic(auto, unfolding(crate::specs::Moves::unanswered))]
    pub fn unanswered(self, y: u32) -> Rate
        ensures { result ≡ unanswered y self }
    {
        if y < self.params.crm() || self.params.c == Params::CDF_ZERO {
            return self;
        }
        self.moved(self.params.least().max(reduced_by(self.params.c, self.acr)))
    }

    #[tactic(auto, unfolding(crate::specs::Moves::rate_by_marks))]
    fn rate_by_marks(self, ci: bool, ni: bool) -> u64
        ensures { result ≡ rate_by_marks ci ni self }
    {
        if ci {
            reduced_by(self.params.d, self.acr)
        } else if ni {
            self.acr
        } else {
            raised(self.params.r, self.params.peak(), self.acr)
        }
    }

    // CI, NI and the rate of ER, as a backward cell brings them.
    #[tactic(auto, unfolding(crate::specs::Moves::feedback))]
    pub fn feedback(self, ci: bool, ni: bool, er: u64) -> Rate
        ensures { result ≡ feedback ci ni er self }
    {
        self.moved(self.params.least().max(self.rate_by_marks(ci, ni).min(er)))
    }
}

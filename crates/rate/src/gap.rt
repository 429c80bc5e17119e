// The gap between two cells (document 01, "Slots").
ghost use Rattle.std.specs.Prelude.{◌≡◌};
ghost use Rattle.rate.specs.Gap.{gap};

// 512,000,000,000 over the rate, rounded up; no rate, no gap.
#[tactic(auto, using(crate::proofs::Gaps::gap_none, crate::proofs::Gaps::gap_div_ceil))]
pub fn gap(acr: u64) -> u64
    ensures { result ≡ gap acr }
{
    if acr == 0 {
        0
    } else {
        512000000000u64.div_ceil(acr)
    }
}

// Setting the congestion level (document 01, "Turning cells round").
ghost use Rattle.model.specs.Returned.{done_as};
ghost use Rattle.model.specs.Step.{level_step};
ghost use Rattle.engine.specs.Contract.{Meets, whole_answer};

use laws::refusals::Refusal;
use table::layout::{LEVEL, WORDS};

// Refusal 9.
pub fn set_level(t: &mut [u64; WORDS], level: u32) -> Result<(), Refusal>
    ensures { Meets whole_answer (λ s. level_step s level) t.old t.new (done_as result) }
{
    if 2 < level {
        return Err(Refusal::TooLarge);
    }
    t[LEVEL] = level as u64;
    Ok(())
}

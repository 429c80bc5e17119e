// Making a backward cell (document 02, L1).
ghost use Rattle.engine.specs.Contract.{Meets, whole_answer};
ghost use Rattle.model.specs.Returned.{accepted_as};
ghost use Rattle.model.specs.Step.{make_step};

use crate::timed::timed_entry;
use connection::interval::rested;
use connection_destination::make::with_made;
use laws::refusals::Refusal;
use table::layout::{HALF, LAST, LEVEL, WORDS};
use table_entry::load::load;
use table_store::store::update_destination;

// Refusals 8, 11, 14, 16, 17.
pub fn make(t: &mut [u64; WORDS], name: u32, time: u64) -> Result<u32, Refusal>
    ensures { Meets whole_answer (λ s. make_step s name time) t.old t.new (accepted_as result) }
{
    let i = timed_entry(t, name, time)?;
    let level = (t[LEVEL] % HALF) as u32;
    if level == 0 {
        return Err(Refusal::NotCongested);
    }
    let c = load(t, i);
    let destination = c.destination;
    let made = destination.made;
    let last = made.last;
    if !rested(time, last) {
        return Err(Refusal::MadeTooSoon);
    }
    let comparisons = update_destination(t, i, with_made(time, level, c));
    t[LAST] = time;
    Ok(comparisons)
}

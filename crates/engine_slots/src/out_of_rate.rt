// An out-of-rate forward cell (document 02, L5).
ghost use Rattle.std.specs.Prelude.{length};
ghost use Rattle.engine.specs.Contract.{MeetsWriting, whole_answer};
ghost use Rattle.model.specs.Returned.{done_as};
ghost use Rattle.model.specs.Step.{out_of_rate_step};

use crate::send::put_forward;
use connection::interval::rested;
use connection_source::out_of_rate::after_out_of_rate;
use engine::timed::timed_entry;
use laws::refusals::Refusal;
use table::layout::{LAST, WORDS};
use table_entry::load::load;
use table_store::store::update_out_of_rate;

// Refusals 1, 8, 11, 14, 18. It replays no match.
pub fn out_of_rate(
    t: &mut [u64; WORDS],
    name: u32,
    time: u64,
    cell: &mut [u8],
) -> Result<(), Refusal>
    ensures { MeetsWriting whole_answer (λ s. out_of_rate_step s name time (length cell.old)) t.old t.new (done_as result) cell.old cell.new }
{
    let Some(cell) = cell.as_mut_array() else {
        return Err(Refusal::Length);
    };
    let i = timed_entry(t, name, time)?;
    let c = load(t, i);
    let last = c.out_of_rate;
    if !rested(time, last) {
        return Err(Refusal::OutOfRateTooSoon);
    }
    let rate = c.rate;
    put_forward(cell, 1, c.name, rate);
    let next = after_out_of_rate(time, c);
    let out_of_rate = next.out_of_rate;
    update_out_of_rate(t, i, out_of_rate);
    t[LAST] = time;
    Ok(())
}

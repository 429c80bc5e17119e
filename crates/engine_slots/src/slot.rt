// A slot: the connection it goes to, what it sends, and the allowed rate before and after it (document 01, "Slots").
ghost use Rattle.std.specs.Prelude.{length};
ghost use Rattle.model.specs.Details.{slot_answer};
ghost use Rattle.model.specs.Returned.{sent_as};
ghost use Rattle.model.specs.Step.{slot_step};
ghost use Rattle.engine.specs.Contract.{MeetsWriting};

use crate::send::send;
use laws::refusals::Refusal;
use model::answers::Sent;
use rate::units::LATEST_TIME;
use table::layout::{LAST, WORDS};
use table_tournament::slot::slot_winner;

// Refusals 1, 8, 14. None is an idle slot. An idle slot's time counts too.
pub fn slot(t: &mut [u64; WORDS], time: u64, cell: &mut [u8]) -> Result<Option<Sent>, Refusal>
    ensures { MeetsWriting slot_answer (λ s. slot_step s time (length cell.old)) t.old t.new (sent_as result) cell.old cell.new }
{
    let Some(cell) = cell.as_mut_array() else {
        return Err(Refusal::Length);
    };
    if LATEST_TIME < time {
        return Err(Refusal::Time);
    }
    if time < t[LAST] {
        return Err(Refusal::TimeBackward);
    }
    let found = slot_winner(t, time);
    t[LAST] = time;
    match found {
        None => Ok(None),
        Some(i) => Ok(send(t, time, i, cell)),
    }
}

// The calls on the link as a whole: received cells, the congestion level, slots, when the next slot can send, which
// time to pass to it, and what is read of the link (document 01, "Turning cells round" and "Slots"; document 02, L6).
ghost use Rattle.std.specs.Prelude.{length};
ghost use Rattle.model.specs.Step.{receive_step, level_step, slot_step};
ghost use Rattle.table_tournament.specs.Next.{GivesNext, GivesSlotTime};
ghost use Rattle.abr.specs.Contract.{ReturnsReceived, ReturnsRefusal, ReturnsSent, ReturnsTotals};

use abr_answers::details::{AbrReceived, AbrSent};
use abr_answers::status::AbrTotals;
use abr_readings::totals::read_totals;
use engine::level::set_level;
use engine_arrivals::receive::receive;
use engine_slots::slot::slot;
use laws::refusals::refusal_or_0;
use table::layout::WORDS;
use table_tournament::next::next_ready;
use table_tournament::slot_time::slot_time;

// Refusals 1, 2, 4, then 5, 6 and 19 for RM cells, 11.
pub fn abr_receive(table: &mut [u64; WORDS], cell: &[u8]) -> AbrReceived
    ensures { ReturnsReceived cell.now (λ s. receive_step s cell.now) table.old table.new result }
{
    AbrReceived::from(receive(table, cell))
}

// Refusal 9.
pub fn abr_set_level(table: &mut [u64; WORDS], level: u32) -> u32
    ensures { ReturnsRefusal (λ s. level_step s level) table.old table.new result }
{
    refusal_or_0(set_level(table, level))
}

// Refusals 1, 8, 14.
pub fn abr_slot(table: &mut [u64; WORDS], time: u64, cell: &mut [u8]) -> AbrSent
    ensures { ReturnsSent (λ s. slot_step s time (length cell.old)) table.old table.new result cell.old cell.new }
{
    AbrSent::from(slot(table, time, cell))
}

// No refusal: 2^64 - 1 if no connection is ever ready as things stand.
pub fn abr_next_ready(table: &[u64; WORDS]) -> u64
    ensures { GivesNext table.now result }
{
    next_ready(table)
}

// No refusal: at most the slot's own time, which a time before the last accepted one gives as it is.
pub fn abr_slot_time(table: &[u64; WORDS], time: u64, lag: u64) -> u64
    ensures { GivesSlotTime table.now time lag result }
{
    slot_time(table, time, lag)
}

// No refusal.
pub fn abr_link(table: &[u64; WORDS]) -> AbrTotals
    ensures { ReturnsTotals table.now result }
{
    AbrTotals::from(read_totals(table))
}

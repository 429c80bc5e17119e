// The calls on the link as a whole: received cells, the congestion level, slots, and what is read of the link.
ghost use Rattle.std.specs.Prelude.{length};
ghost use Rattle.model.specs.Step.{receive_step, level_step, slot_step};
ghost use Rattle.table_tournament.specs.Next.{GivesNext, GivesSlotTime};
ghost use Rattle.abr.specs.Contract.{ReturnsReceived, ReturnsRefusal, ReturnsSent, ReturnsTotals};

use abr_answers::details::{AbrReceived, AbrSent};
use abr_answers::status::AbrTotals;
use table::layout::WORDS;

#[unsafe(no_mangle)]
pub extern "C" fn abr_receive(table: &mut [u64; WORDS], cell: &[u8]) -> AbrReceived
    ensures { ReturnsReceived cell.now (λ s. receive_step s cell.now) table.old table.new result }
{
    abr::link::abr_receive(table, cell)
}

#[unsafe(no_mangle)]
pub extern "C" fn abr_set_level(table: &mut [u64; WORDS], level: u32) -> u32
    ensures { ReturnsRefusal (λ s. level_step s level) table.old table.new result }
{
    abr::link::abr_set_level(table, level)
}

#[unsafe(no_mangle)]
pub extern "C" fn abr_slot(table: &mut [u64; WORDS], time: u64, cell: &mut [u8]) -> AbrSent
    ensures { ReturnsSent (λ s. slot_step s time (length cell.old)) table.old table.new result cell.old cell.new }
{
    abr::link::abr_slot(table, time, cell)
}

#[unsafe(no_mangle)]
pub extern "C" fn abr_next_ready(table: &[u64; WORDS]) -> u64
    ensures { GivesNext table.now result }
{
    abr::link::abr_next_ready(table)
}

#[unsafe(no_mangle)]
pub extern "C" fn abr_slot_time(table: &[u64; WORDS], time: u64, lag: u64) -> u64
    ensures { GivesSlotTime table.now time lag result }
{
    abr::link::abr_slot_time(table, time, lag)
}

#[unsafe(no_mangle)]
pub extern "C" fn abr_link(table: &[u64; WORDS]) -> AbrTotals
    ensures { ReturnsTotals table.now result }
{
    abr::link::abr_link(table)
}

// The time to pass to a slot. With it, a connection's next cell is due from the instant at which it was ready, and
// not from the time of the slot that came late.
ghost use Rattle.table_tournament.specs.Next.{GivesSlotTime};

use crate::next::next_ready;
use table::layout::{LAST, WORDS};

// Of any numbers and any table at most the slot's own time.
pub fn slot_time(t: &[u64; WORDS], time: u64, lag: u64) -> u64
    ensures { GivesSlotTime t.now time lag result }
{
    let ready = next_ready(t);
    let since = t[LAST].max(time.saturating_sub(lag));
    time.min(ready.max(since))
}

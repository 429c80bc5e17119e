// The entry of a named connection at a time, which making a backward cell and an out-of-rate cell look for first
// (document 02, L1 and L5).
ghost use Rattle.engine.specs.Timed.{FindsTimed};

use laws::refusals::Refusal;
use rate::units::LATEST_TIME;
use table::layout::{LAST, WORDS};
use table_names::find::find;

// Refusals 8, 11, 14.
pub fn timed_entry(t: &[u64; WORDS], name: u32, time: u64) -> Result<usize, Refusal>
    ensures { FindsTimed t.now name time result }
{
    if LATEST_TIME < time {
        return Err(Refusal::Time);
    }
    let i = find(t, name).ok_or(Refusal::NotOpen)?;
    if time < t[LAST] {
        return Err(Refusal::TimeBackward);
    }
    Ok(i)
}

// The cells of a trace (document 02, L11).
ghost use Rattle.std.specs.Prelude.{◌≡◌};
ghost use Rattle.trace_judge.specs.Octets.{number_within, record_at};

use laws::refusals::Refusal;
use rate::units::LARGEST_RATE;
use trace::reader::Reader;

// The nanoseconds since the cell before, the kind (1 forward, 2 backward, 3 data) and the rate in force before it.
#[derive(Clone, Copy, Debug, PartialEq, Eq)]
pub struct Cell {
    pub since: u64,
    // The octets' own number and no enum: the theorems on the engine's traces compare it with `kind_number`.
    pub kind: u64,
    pub rate: u64,
}

// A number and the offset after it. TraceRange if it is out of its range; TraceNumber and TraceEnd as `number_at`.
#[tactic(auto, unfolding(crate::specs::Octets::ranged, rate_params::specs::Params::within))]
#[inline(always)]
pub fn number_within(
    trace: &[u8],
    offset: usize,
    low: u64,
    high: u64,
) -> Result<(u64, usize), Refusal>
    ensures { result ≡ number_within trace.now offset low high }
{
    let (value, next) = Reader::over(trace, offset).read()?;
    if (low..=high).contains(&value) {
        Ok((value, next))
    } else {
        Err(Refusal::TraceRange)
    }
}

// The cell of the record at an offset, and the offset after it; `most` is the latest that it may come after the cell
// before.
#[tactic(auto, unfolding(crate::specs::Octets::since_read, crate::specs::Octets::kind_read, crate::specs::Octets::rate_read))]
pub fn record_at(trace: &[u8], offset: usize, most: u64) -> Result<(Cell, usize), Refusal>
    ensures { result ≡ record_at trace.now offset most }
{
    let (since, kind_from) = number_within(trace, offset, 0, most)?;
    let (kind, rate_from) = number_within(trace, kind_from, 1, 3)?;
    let (rate, next) = number_within(trace, rate_from, 0, LARGEST_RATE)?;
    Ok((Cell { since, kind, rate }, next))
}

// The judge of a foreign transmitter's trace (document 02, L11).
ghost use Rattle.std.specs.Prelude.{◌≡◌, ◌≤◌, eqb, length, true};
ghost use Rattle.rate.specs.Units.{latest_time};
ghost use Rattle.trace_judge.specs.Octets.{most_since, cells_parsed, verdict_of, judged_octets};

use crate::cells::{number_within, record_at};
use crate::rules::{Broken, Sent, with_broken, with_sent};
use laws::refusals::Refusal;
use rate::units::LATEST_TIME;
use rate_params::params::trm_time;

// The latest that a cell may come after the one before; the first comes at 0.
#[tactic(auto, unfolding(crate::specs::Octets::most_since))]
fn most_since(cells: u64, time: u64) -> u64
    requires { time ≤ latest_time }
    ensures { result ≡ most_since (eqb cells 0) time }
{
    if cells == 0 { 0 } else { LATEST_TIME - time }
}

// The cells from an offset on. After a broken rule they are still read: a refusal goes before it.
fn judge_cells(trace: &[u8], start: usize, n: u64, trm: u64) -> Result<Option<Broken>, Refusal>
    requires { (n ≤ 8) × (trm ≤ 7) }
    ensures { result ≡ verdict_of n trm (cells_parsed (length trace.now) trace.now start true 0) }
{
    let nrm = 1u64 << n;
    let trm_ns = trm_time(trm as u32);
    let mut offset = start;
    let mut sent = Sent {
        cells: 0,
        time: 0,
        forward: 0,
        k: 0,
    };
    let mut broken = None;
    // No `for`: the offset moves on by as many octets as the record has.
    while offset < trace.len() {
        let (cell, next) = record_at(trace, offset, most_since(sent.cells, sent.time))?;
        broken = with_broken(nrm, trm_ns, broken, sent, cell);
        sent = with_sent(sent, cell);
        offset = next;
    }
    Ok(broken)
}

// The first cell of a trace that breaks a rule, if one does. TraceNumber, TraceEnd, TraceRange.
#[tactic(auto, unfolding(crate::specs::Octets::n_read, crate::specs::Octets::trm_read))]
pub fn judge(trace: &[u8]) -> Result<Option<Broken>, Refusal>
    ensures { result ≡ judged_octets trace.now }
{
    let (n, trm_from) = number_within(trace, 0, 1, 8)?;
    let (trm, cells_from) = number_within(trace, trm_from, 0, 7)?;
    judge_cells(trace, cells_from, n, trm)
}

// Forward cells: what sending one makes of a connection, and what it carries (document 01, "Slots").
ghost use Rattle.std.specs.Prelude.{◌≡◌, ◌+◌, min};
ghost use Rattle.connection.specs.Parts.{unanswered_most};
ghost use Rattle.connection.specs.Source.{moved_by, sent_forward};
ghost use Rattle.connection.specs.Range.{ForwardCarried};

use cell::fields::Fields;
use cell::name::VCIS;
use connection::parts::{Connection, Pace, UNANSWERED_MOST};
use rate::canonical::canonical;
use rate::code::code_or_zero;
use rate_moves::moves::Rate;

// The moves before a forward cell at t. Only a damaged table has the last forward cell later than t.
#[tactic(auto, unfolding(connection::specs::Source::moved_by))]
pub fn moved_by(t: u64, y: u32, pace: Pace, rate: Rate) -> Rate
    ensures { result ≡ moved_by t y pace rate }
{
    match pace {
        Pace::Unsent => rate.first_cell(),
        Pace::Running { forward, .. } => rate.idle(t.saturating_sub(forward)).unanswered(y),
    }
}

// Y with one more forward cell.
fn counted(y: u32) -> u32
    ensures { result ≡ min (y + 1) unanswered_most }
{
    y.saturating_add(1).min(UNANSWERED_MOST)
}

#[tactic(auto, unfolding(connection::specs::Source::sent_forward))]
pub fn sent_forward(t: u64, c: Connection) -> Connection
    ensures { result ≡ sent_forward t c }
{
    let moved = moved_by(t, c.unanswered, c.pace, c.rate);
    let now = Pace::Running {
        sent: t,
        forward: t,
        k: 0,
        turned: false,
    };
    c.with_rate(moved)
        .with_pace(now)
        .with_unanswered(counted(c.unanswered))
}

// The fields of a forward cell. An allowed rate above the largest, which only a damaged table holds, is carried as 0.
pub fn forward_fields(name: u32, rate: Rate) -> Fields
    ensures { ForwardCarried name rate result }
{
    Fields {
        vpi: name / VCIS,
        vci: name % VCIS,
        dir: 0,
        bn: 0,
        ci: 0,
        ni: 0,
        ra: 0,
        er: canonical(rate.params.pcr),
        ccr: code_or_zero(rate.acr),
        mcr: canonical(rate.params.mcr),
        ql: 0,
        sn: 0,
    }
}

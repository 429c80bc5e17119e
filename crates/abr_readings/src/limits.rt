// CRM and the initial rate used, which no word holds. They are those of Params::crm and Params::initial_used for every
// set of parameters that an open takes, in fewer steps.
ghost use Rattle.std.specs.Prelude.{◌≡◌, ◌+◌, ◌-◌, ◌*◌, ◌/◌, ◌^◌, ◌<◌, ◌≤◌};
ghost use Rattle.rate_params.specs.Params.{least, initial, initial_used};
ghost use Rattle.table.specs.Loading.{params_at};
ghost use Rattle.model.specs.State.{capacity};
ghost use Rattle.table.specs.Layout.{record_from};
ghost use Rattle.abr_readings.specs.Limits.{LimitsOf};

use rate_params::params::Params;
use table::layout::{RECORD_WIDTH, RECORDS, WORDS};
use table_entry::load::params_at;

#[derive(Clone, Copy)]
pub struct Limits {
    pub crm: u32,
    pub icr: u64,
}

// x / 2^n, rounded up, for x from 1 on and n below 32.
fn part(x: u32, n: u32) -> u32
    ensures { 0 < x → n < 32 → result ≡ (x + 2 ^ n - 1) / 2 ^ n }
{
    let last = std::num::wrapping_sub_u32(x, 1);
    let whole = last >> (n % 32);
    std::num::wrapping_add_u32(whole, 1)
}

// Where the initial rate is no higher than that of TBE cells in a round trip, it is used as it is.
fn initial_of(p: Params) -> u64
    ensures { least p ≤ initial p → result ≡ initial_used p }
{
    let initial = p.initial();
    if p.frtt == 0 {
        return initial;
    }
    let tbe_rate = 512000000 * (p.tbe as u64) / (p.frtt as u64);
    if initial <= tbe_rate {
        return initial;
    }
    p.least().max(tbe_rate)
}

// Of the connection in entry i.
pub fn limits_at(t: &[u64; WORDS], i: usize) -> Limits
    requires { i < capacity }
    ensures { LimitsOf (params_at t.now (record_from i)) result }
{
    let p = params_at(t, RECORDS + i * RECORD_WIDTH);
    Limits {
        crm: part(p.tbe, p.n),
        icr: initial_of(p),
    }
}

// One exported call of each sort in a row, on one table. It is here for its contract: what the exports ensure, as
// they stand, makes a transcript. So the theorem on transcripts (abr/Exports) and the promises above it are about
// exactly these functions.
#![tactic(auto)]

ghost use Rattle.abr_composed.specs.EachCall.{EachCall};

use abr::connections::{abr_acr, abr_close, abr_make, abr_offer, abr_open, abr_out_of_rate};
use abr::link::{abr_next_ready, abr_receive, abr_set_level, abr_slot, abr_slot_time};
use abr_answers::calls::AbrAllowed;
use rate_params::params::Params;
use table::layout::WORDS;

pub mod path;
pub mod planning;
pub mod readings;

#[derive(Clone, Copy)]
pub struct Arguments {
    pub vpi: u32,
    pub vci: u32,
    pub time: u64,
    pub params: Params,
    pub lag: u64,
    pub cells: u64,
    pub level: u32,
}

// The answer is that of reading the ACR.
pub fn each_call(t: &mut [u64; WORDS], a: Arguments, received: &[u8], cell: &mut [u8]) -> AbrAllowed
    ensures { EachCall a received.now t.old t.new result cell.old cell.new }
{
    let params = a.params;
    let opened = abr_open(t, a.vpi, a.vci, a.time, params);
    let offered = abr_offer(t, a.vpi, a.vci, a.cells);
    let levelled = abr_set_level(t, a.level);
    let taken = abr_receive(t, received);
    let next = abr_next_ready(t);
    let time = abr_slot_time(t, a.time, a.lag);
    let sent = abr_slot(t, time, cell);
    let left = abr_out_of_rate(t, a.vpi, a.vci, a.time, cell);
    let made = abr_make(t, a.vpi, a.vci, a.time);
    let rate = abr_acr(t, a.vpi, a.vci);
    let closed = abr_close(t, a.vpi, a.vci);
    rate
}

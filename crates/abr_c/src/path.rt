// The calls on paths and their members.
ghost use Rattle.model.specs.Step.{open_path_step, add_step, offer_member_step, remove_step};
ghost use Rattle.abr.specs.Contract.{ReturnsOpened, ReturnsAnswer, ReturnsClosed};

use abr_answers::calls::{AbrAnswer, AbrClosed};
use abr_answers::details::AbrOpened;
use rate_params::params::Params;
use table::layout::WORDS;

#[unsafe(no_mangle)]
pub extern "C" fn abr_open_path(
    table: &mut [u64; WORDS],
    vpi: u32,
    time: u64,
    params: Params,
) -> AbrOpened
    ensures { ReturnsOpened (λ s. open_path_step s vpi time params) table.old table.new result }
{
    abr::path::abr_open_path(table, vpi, time, params)
}

#[unsafe(no_mangle)]
pub extern "C" fn abr_add_member(table: &mut [u64; WORDS], vpi: u32, vci: u32) -> AbrAnswer
    ensures { ReturnsAnswer (λ s. add_step s vpi vci) table.old table.new result }
{
    abr::path::abr_add_member(table, vpi, vci)
}

#[unsafe(no_mangle)]
pub extern "C" fn abr_offer_member(
    table: &mut [u64; WORDS],
    vpi: u32,
    vci: u32,
    cells: u64,
) -> AbrAnswer
    ensures { ReturnsAnswer (λ s. offer_member_step s vpi vci cells) table.old table.new result }
{
    abr::path::abr_offer_member(table, vpi, vci, cells)
}

#[unsafe(no_mangle)]
pub extern "C" fn abr_remove_member(table: &mut [u64; WORDS], vpi: u32, vci: u32) -> AbrClosed
    ensures { ReturnsClosed (λ s. remove_step s vpi vci) table.old table.new result }
{
    abr::path::abr_remove_member(table, vpi, vci)
}

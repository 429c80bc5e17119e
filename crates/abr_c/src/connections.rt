// The calls on one connection, by its address or its leaf, and on a member by its number.
ghost use Rattle.std.specs.Prelude.{length};
ghost use Rattle.cell.specs.Name.{address_name};
ghost use Rattle.model.specs.Step.{open_step, close_step, offer_step, make_step, out_of_rate_step};
ghost use Rattle.abr.specs.Contract.{ReturnsOpened, ReturnsAnswer, ReturnsClosed, ReturnsRefusalWriting, ReturnsAllowed, ReturnsStatus, ReturnsAt, ReturnsMember};

use abr_answers::calls::{AbrAllowed, AbrAnswer, AbrClosed};
use abr_answers::details::AbrOpened;
use abr_answers::status::{AbrConnection, AbrMember};
use rate_params::params::Params;
use table::layout::WORDS;

#[unsafe(no_mangle)]
pub extern "C" fn abr_open(
    table: &mut [u64; WORDS],
    vpi: u32,
    vci: u32,
    time: u64,
    params: Params,
) -> AbrOpened
    ensures { ReturnsOpened (λ s. open_step s vpi vci time params) table.old table.new result }
{
    abr::connections::abr_open(table, vpi, vci, time, params)
}

#[unsafe(no_mangle)]
pub extern "C" fn abr_close(table: &mut [u64; WORDS], vpi: u32, vci: u32) -> AbrClosed
    ensures { ReturnsClosed (λ s. close_step s (address_name vpi vci)) table.old table.new result }
{
    abr::connections::abr_close(table, vpi, vci)
}

#[unsafe(no_mangle)]
pub extern "C" fn abr_offer(table: &mut [u64; WORDS], vpi: u32, vci: u32, cells: u64) -> AbrAnswer
    ensures { ReturnsAnswer (λ s. offer_step s (address_name vpi vci) cells) table.old table.new result }
{
    abr::connections::abr_offer(table, vpi, vci, cells)
}

#[unsafe(no_mangle)]
pub extern "C" fn abr_make(table: &mut [u64; WORDS], vpi: u32, vci: u32, time: u64) -> AbrAnswer
    ensures { ReturnsAnswer (λ s. make_step s (address_name vpi vci) time) table.old table.new result }
{
    abr::connections::abr_make(table, vpi, vci, time)
}

#[unsafe(no_mangle)]
pub extern "C" fn abr_out_of_rate(
    table: &mut [u64; WORDS],
    vpi: u32,
    vci: u32,
    time: u64,
    cell: &mut [u8],
) -> u32
    ensures { ReturnsRefusalWriting (λ s. out_of_rate_step s (address_name vpi vci) time (length cell.old)) table.old table.new result cell.old cell.new }
{
    abr::connections::abr_out_of_rate(table, vpi, vci, time, cell)
}

#[unsafe(no_mangle)]
pub extern "C" fn abr_acr(table: &[u64; WORDS], vpi: u32, vci: u32) -> AbrAllowed
    ensures { ReturnsAllowed (address_name vpi vci) table.now result }
{
    abr::connections::abr_acr(table, vpi, vci)
}

#[unsafe(no_mangle)]
pub extern "C" fn abr_status(table: &[u64; WORDS], vpi: u32, vci: u32) -> AbrConnection
    ensures { ReturnsStatus (address_name vpi vci) table.now result }
{
    abr::connections::abr_status(table, vpi, vci)
}

#[unsafe(no_mangle)]
pub extern "C" fn abr_at(table: &[u64; WORDS], leaf: u32) -> AbrConnection
    ensures { ReturnsAt leaf table.now result }
{
    abr::connections::abr_at(table, leaf)
}

#[unsafe(no_mangle)]
pub extern "C" fn abr_member_at(table: &[u64; WORDS], number: u32) -> AbrMember
    ensures { ReturnsMember number table.now result }
{
    abr::connections::abr_member_at(table, number)
}

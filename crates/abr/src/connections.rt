// The calls on one connection, by its address or its leaf, and on a member by its number (document 01, "Opening" and
// "Slots"; document 02, L1, L5, L6, L12 and L13).
ghost use Rattle.std.specs.Prelude.{length};
ghost use Rattle.cell.specs.Name.{address_name};
ghost use Rattle.model.specs.Step.{open_step, close_step, offer_step, make_step, out_of_rate_step};
ghost use Rattle.abr.specs.Contract.{ReturnsOpened, ReturnsAnswer, ReturnsClosed, ReturnsRefusalWriting, ReturnsAllowed, ReturnsStatus, ReturnsAt, ReturnsMember};

use abr_answers::calls::{AbrAllowed, AbrAnswer, AbrClosed};
use abr_answers::details::AbrOpened;
use abr_answers::status::{AbrConnection, AbrMember, not_open};
use abr_readings::entry::read_entry;
use abr_readings::limits::limits_at;
use abr_readings::members::read_member_at;
use abr_readings::place::{place_at, place_of};
use cell::name::address_name;
use engine::acr::read_acr;
use engine::close::close;
use engine::make::make;
use engine::offer::offer;
use engine::open::open;
use engine_slots::out_of_rate::out_of_rate;
use laws::refusals::refusal_or_0;
use rate_params::params::Params;
use table::layout::WORDS;

// Refusals 10, 19, 7, 29, 30, 8, 12, 27, 13, 14.
pub fn abr_open(
    table: &mut [u64; WORDS],
    vpi: u32,
    vci: u32,
    time: u64,
    params: Params,
) -> AbrOpened
    ensures { ReturnsOpened (λ s. open_step s vpi vci time params) table.old table.new result }
{
    AbrOpened::from(open(table, vpi, vci, time, params))
}

// Refusal 11.
pub fn abr_close(table: &mut [u64; WORDS], vpi: u32, vci: u32) -> AbrClosed
    ensures { ReturnsClosed (λ s. close_step s (address_name vpi vci)) table.old table.new result }
{
    let name = address_name(vpi, vci);
    AbrClosed::from(close(table, name))
}

// Refusals 11, 28, 15.
pub fn abr_offer(table: &mut [u64; WORDS], vpi: u32, vci: u32, cells: u64) -> AbrAnswer
    ensures { ReturnsAnswer (λ s. offer_step s (address_name vpi vci) cells) table.old table.new result }
{
    let name = address_name(vpi, vci);
    AbrAnswer::from(offer(table, name, cells))
}

// Refusals 8, 11, 14, 16, 17.
pub fn abr_make(table: &mut [u64; WORDS], vpi: u32, vci: u32, time: u64) -> AbrAnswer
    ensures { ReturnsAnswer (λ s. make_step s (address_name vpi vci) time) table.old table.new result }
{
    let name = address_name(vpi, vci);
    AbrAnswer::from(make(table, name, time))
}

// Refusals 1, 8, 11, 14, 18. It makes no comparisons.
pub fn abr_out_of_rate(
    table: &mut [u64; WORDS],
    vpi: u32,
    vci: u32,
    time: u64,
    cell: &mut [u8],
) -> u32
    ensures { ReturnsRefusalWriting (λ s. out_of_rate_step s (address_name vpi vci) time (length cell.old)) table.old table.new result cell.old cell.new }
{
    let name = address_name(vpi, vci);
    refusal_or_0(out_of_rate(table, name, time, cell))
}

// Refusal 11.
pub fn abr_acr(table: &[u64; WORDS], vpi: u32, vci: u32) -> AbrAllowed
    ensures { ReturnsAllowed (address_name vpi vci) table.now result }
{
    let name = address_name(vpi, vci);
    AbrAllowed::from(read_acr(table, name))
}

// Refusal 11, of a pair that is neither an open connection nor a member.
pub fn abr_status(table: &[u64; WORDS], vpi: u32, vci: u32) -> AbrConnection
    ensures { ReturnsStatus (address_name vpi vci) table.now result }
{
    let name = address_name(vpi, vci);
    match place_of(table, name) {
        Some(place) => read_entry(table, place, limits_at(table, place.entry)),
        None => not_open(),
    }
}

// Refusal 11, of a free leaf and of a number that is none.
pub fn abr_at(table: &[u64; WORDS], leaf: u32) -> AbrConnection
    ensures { ReturnsAt leaf table.now result }
{
    match place_at(table, leaf) {
        Some(place) => read_entry(table, place, limits_at(table, place.entry)),
        None => not_open(),
    }
}

// Refusal 11, of a number that no member has.
pub fn abr_member_at(table: &[u64; WORDS], number: u32) -> AbrMember
    ensures { ReturnsMember number table.now result }
{
    AbrMember::from(read_member_at(table, number))
}

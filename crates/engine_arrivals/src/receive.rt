// Receiving a cell (document 01, "Refused because of the input", "Four moves of the allowed rate" and
// "Turning cells round"; document 02, L13).
ghost use Rattle.std.specs.Prelude.{[]};
ghost use Rattle.cell_payload.specs.Payload.{payload_of};
ghost use Rattle.cell.specs.Fields.{CrcMatches};
ghost use Rattle.cell.specs.Octets.{payload};
ghost use Rattle.cell.specs.Read.{DataCell, RmCell};
ghost use Rattle.cell.specs.Reading.{reading};
ghost use Rattle.model.specs.Details.{receive_answer};
ghost use Rattle.model.specs.Returned.{received_as};
ghost use Rattle.model.specs.Step.{read_step, receive_step};
ghost use Rattle.engine.specs.Contract.{Meets};

use crate::owner::find_owner;
use cell::fields::Fields;
use cell::name::{VCIS, address_name};
use cell::octets::CELL_OCTETS;
use cell_payload::payload::payload_at;
use cell_read::fields::{fields_of, vci_of, vpi_of};
use cell_read::read::{efci_of, header_checked, is_data, rm_refusal};
use connection::kind::Kind;
use connection_destination::receive::{after_data_cell, after_forward_payload};
use connection_members::path::PATH_VCI;
use connection_source::backward::after_backward_cell;
use laws::refusals::Refusal;
use model::answers::Received;
use table::layout::{HALF, LEVEL, WORDS};
use table_entry::load::load;
use table_names::find::find;
use table_store::store::{update_destination, update_efci, update_source};
use table_tournament::replay::levels_won;

// A data cell, whose octets no longer count: refusal 11, on a path's own name too.
fn receive_data(t: &mut [u64; WORDS], vpi: u32, vci: u32, efci: bool) -> Result<Received, Refusal>
    ensures { Meets (receive_answer (DataCell vpi vci efci)) (λ s. read_step s [] (DataCell vpi vci efci)) t.old t.new (received_as result) }
{
    let name = address_name(vpi, vci);
    if name % VCIS == PATH_VCI {
        return Err(Refusal::NotOpen);
    }
    let i = find_owner(t, name).ok_or(Refusal::NotOpen)?;
    let c = load(t, i);
    let next = after_data_cell(efci, c);
    let destination = next.destination;
    let leaf = i as u32;
    let comparisons = levels_won(t, i);
    update_efci(t, i, destination);
    Ok(Received {
        comparisons,
        kind: Kind::Data,
        name,
        leaf,
        acr: next.rate.acr,
    })
}

// An RM cell of these fields: a backward cell moves the rate, a forward one is turned round. Refusal 11.
fn receive_rm(
    t: &mut [u64; WORDS],
    cell: &[u8; CELL_OCTETS],
    f: Fields,
) -> Result<Received, Refusal>
    requires { CrcMatches (payload_of (payload cell.now)) }
    ensures { Meets (receive_answer (RmCell f)) (λ s. read_step s cell.now (RmCell f)) t.old t.new (received_as result) }
{
    let name = address_name(f.vpi, f.vci);
    let i = find(t, name).ok_or(Refusal::NotOpen)?;
    let leaf = i as u32;
    let c = load(t, i);
    if f.dir == 1 {
        let next = after_backward_cell(f, c);
        let comparisons = update_source(t, i, next);
        return Ok(Received {
            comparisons,
            kind: Kind::Turned,
            name,
            leaf,
            acr: next.rate.acr,
        });
    }
    let level = (t[LEVEL] % HALF) as u32;
    let next = after_forward_payload(level, payload_at(cell), c);
    let comparisons = update_destination(t, i, next);
    Ok(Received {
        comparisons,
        kind: Kind::Forward,
        name,
        leaf,
        acr: next.rate.acr,
    })
}

// Refusals 1, 2, 4, then 5, 6 and 19 for RM cells, 11. The steps are those of `refusal`, taken one by one: a data cell
// makes no fields and does not pay for the check of an RM cell.
pub fn receive(t: &mut [u64; WORDS], cell: &[u8]) -> Result<Received, Refusal>
    ensures { Meets (receive_answer (reading cell.now)) (λ s. receive_step s cell.now) t.old t.new (received_as result) }
{
    let cell = header_checked(cell)?;
    if is_data(cell) {
        return receive_data(t, vpi_of(cell), vci_of(cell), efci_of(cell));
    }
    rm_refusal(cell)?;
    receive_rm(t, cell, fields_of(cell))
}

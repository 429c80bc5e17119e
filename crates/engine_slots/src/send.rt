// A slot that goes to an entry: the cell that it sends, and what that makes of the entry (document 01, "Slots").
ghost use Rattle.std.specs.Prelude.{◌≡◌, ◌≤◌, ◌<◌};
ghost use Rattle.rate.specs.Units.{latest_time};
ghost use Rattle.cell.specs.Name.{no_name};
ghost use Rattle.connection.specs.declared.kind.Kind.TheVariants.{Forward, Turned};
ghost use Rattle.connection.specs.Destination.{backward_cell};
ghost use Rattle.engine_slots.specs.Slots.{ForwardIn, SendsKind, Sends};
ghost use Rattle.model.specs.Details.{none_turned};
ghost use Rattle.model.specs.Returned.{sent_cell_as, slot_as};
ghost use Rattle.model.specs.State.{capacity};

use crate::data::send_data;
use cell::name::VCIS;
use cell::octets::CELL_OCTETS;
use cell_payload::payload::Payload;
use cell_write::turned::put_turned;
use cell_write::write::put_rm;
use connection::kind::Kind;
use connection_destination::make::made_fields;
use connection_destination::turned::sent_turned;
use connection_slot::kind::kind_at;
use connection_source::forward::{forward_fields, sent_forward};
use model::answers::Sent;
use rate_moves::moves::Rate;
use rate_params::params::Params;
use table::layout::{LEVELS, WORDS};
use table_entry::load::{load, load_first_line};
use table_store::winner::{update_winner, update_winner_source};
use table_tournament::winner::leads_neighbour;

// The backward cell that goes: the turned one that waits, else the made one.
fn put_backward(
    cell: &mut [u8; CELL_OCTETS],
    name: u32,
    params: Params,
    w: Option<Payload>,
    level: u32,
)
    requires { name < no_name }
    ensures { cell.new ≡ backward_cell name params w level }
{
    match w {
        None => put_rm(cell, 0, made_fields(name, params, level)),
        Some(p) => put_turned(cell, name / VCIS, name % VCIS, p),
    }
}

// A forward cell, with CLP 1 if it goes out of rate (document 02, L5).
pub fn put_forward(cell: &mut [u8; CELL_OCTETS], clp: u32, name: u32, rate: Rate)
    requires { (clp ≤ 1) × (name < no_name) }
    ensures { ForwardIn clp name rate cell.new }
{
    put_rm(cell, clp, forward_fields(name, rate));
}

// The winner has the greatest key of all. Its neighbour's is looked at for the sake of the caches: its line, which the
// replay needs, is then loaded together with the winner's record and not after it. Other cells need less of the record,
// and their replay comes soon enough.
fn send_forward(
    t: &mut [u64; WORDS],
    time: u64,
    i: usize,
    cell: &mut [u8; CELL_OCTETS],
) -> Option<Sent>
    requires { (i < capacity) × (time ≤ latest_time) }
    ensures { SendsKind Forward time i t.old t.new (slot_as result) cell.old cell.new }
{
    if !leads_neighbour(t, i) {
        return None;
    }
    let c = load(t, i);
    let next = sent_forward(time, c);
    let rate = next.rate;
    put_forward(cell, 0, next.name, rate);
    update_winner_source(t, i, next);
    let leaf = i as u32;
    Some(Sent {
        name: c.name,
        kind: Kind::Forward,
        acr: next.rate.acr,
        comparisons: LEVELS,
        leaf,
        acr_before: c.rate.acr,
        made: false,
    })
}

// Only such a cell changes the receiving side: it no longer waits.
fn send_turned(t: &mut [u64; WORDS], time: u64, i: usize, cell: &mut [u8; CELL_OCTETS]) -> Sent
    requires { (i < capacity) × (time ≤ latest_time) }
    ensures { SendsKind Turned time i t.old t.new (sent_cell_as result) cell.old cell.new }
{
    let c = load(t, i);
    let next = sent_turned(time, c);
    put_backward(
        cell,
        c.name,
        c.rate.params,
        c.destination.turned,
        c.destination.made.level,
    );
    update_winner(t, i, next);
    let leaf = i as u32;
    Sent {
        name: c.name,
        kind: Kind::Turned,
        acr: next.rate.acr,
        comparisons: LEVELS,
        leaf,
        acr_before: c.rate.acr,
        // Where no turned cell waits, the backward cell that goes is a made one (document 02, L1).
        made: c.destination.turned.is_none(),
    }
}

// None if the entry does not win. The first line of the record tells the kind, and is all that a data cell needs.
pub fn send(t: &mut [u64; WORDS], time: u64, i: usize, cell: &mut [u8; CELL_OCTETS]) -> Option<Sent>
    requires { (i < capacity) × (time ≤ latest_time) }
    ensures { Sends time i t.old t.new (slot_as result) cell.old cell.new }
{
    let line = load_first_line(t, i);
    match kind_at(time, line) {
        Kind::Forward => send_forward(t, time, i, cell),
        Kind::Turned => Some(send_turned(t, time, i, cell)),
        Kind::Data => Some(send_data(t, time, i, line)),
    }
}

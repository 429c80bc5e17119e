// A data cell that goes from an entry (document 01, "Slots"; document 02, L13).
ghost use Rattle.std.specs.Prelude.{◌≡◌, false, ◌≤◌, ◌<◌};
ghost use Rattle.rate.specs.Units.{latest_time};
ghost use Rattle.connection.specs.Range.{InRange, CountHasRoom};
ghost use Rattle.cell.specs.Name.{no_name};
ghost use Rattle.engine_slots.specs.Slots.{SendsData};
ghost use Rattle.connection.specs.declared.kind.Kind.TheVariants.{Data};
ghost use Rattle.model.specs.Returned.{sent_cell_as};
ghost use Rattle.model.specs.Answers.{SentCell};
ghost use Rattle.model.specs.State.{capacity};
ghost use Rattle.model.specs.Tournament.{levels};

use cell::name::VCIS;
use connection::kind::Kind;
use connection::parts::Connection;
use connection_members::path::PATH_VCI;
use connection_source::queue::{sent_data, with_served};
use model::answers::Sent;
use table::layout::{LEVELS, WORDS};
use table_entry::load::load_first_line;
use table_members::turn::serve;
use table_store::winner::update_winner_paced;

// What a slot answers of data that goes by this name: the allowed rate stays. All matches of its leaf are replayed
// (document 02, L4).
fn data_answer(name: u32, acr: u64, leaf: u32) -> Sent
    ensures { sent_cell_as result ≡ SentCell name Data acr levels leaf acr false }
{
    Sent {
        name,
        kind: Kind::Data,
        acr,
        comparisons: LEVELS,
        leaf,
        acr_before: acr,
        made: false,
    }
}

// From the first line of the record, which alone was read. Of a path the cell is taken from the member whose turn it
// is, and the slot answers the member's name; the line is then read again, since the search for the member leaves no
// register to keep it in. A channel is not looked for among the members.
pub fn send_data(t: &mut [u64; WORDS], time: u64, i: usize, c: Connection) -> Sent
    requires { (i < capacity) × ((time ≤ latest_time) × ((c.name < no_name) × (InRange c × CountHasRoom c.pace))) }
    ensures { SendsData time i c t.old t.new (sent_cell_as result) }
{
    let leaf = i as u32;
    if c.name % VCIS == PATH_VCI {
        let member = serve(t, c.name, (c.queue.served % VCIS) as u16);
        let line = load_first_line(t, i);
        let next = sent_data(time, line);
        update_winner_paced(t, i, with_served(member, next));
        return data_answer(member, line.rate.acr, leaf);
    }
    update_winner_paced(t, i, sent_data(time, c));
    data_answer(c.name, c.rate.acr, leaf)
}

// Removing a member from its path, with what waits on it (document 02, L13).
ghost use Rattle.engine.specs.Contract.{Meets, whole_answer};
ghost use Rattle.model.specs.Returned.{closed_as};
ghost use Rattle.model.specs.Step.{remove_step};

use crate::member::member_at;
use cell::name::address_name;
use connection_members::path::PATH_VCI;
use connection_source::queue::dequeued;
use laws::refusals::Refusal;
use model::answers::Closed;
use table::layout::WORDS;
use table_entry::load::load;
use table_members::change;
use table_members::find::cells_at;
use table_names::find::find;
use table_store::store::update_queue;

// Refusals 11, 28, which a VCI out of its range meets too. It answers like a close.
pub fn remove(t: &mut [u64; WORDS], vpi: u32, vci: u32) -> Result<Closed, Refusal>
    ensures { Meets whole_answer (λ s. remove_step s vpi vci) t.old t.new (closed_as result) }
{
    let i = find(t, address_name(vpi, PATH_VCI)).ok_or(Refusal::NotOpen)?;
    let j = member_at(t, vpi, vci).ok_or(Refusal::NotAMember)?;
    let waiting = cells_at(t, j);
    let c = load(t, i);
    change::remove(t, address_name(vpi, vci));
    let comparisons = update_queue(t, i, dequeued(waiting, c));
    Ok(Closed {
        comparisons,
        cells: waiting as u64,
    })
}

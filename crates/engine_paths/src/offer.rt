// Offering data to a member (document 02, L13).
ghost use Rattle.engine.specs.Contract.{Meets, whole_answer};
ghost use Rattle.model.specs.Returned.{accepted_as};
ghost use Rattle.model.specs.Step.{offer_member_step};

use crate::member::member_at;
use cell::name::address_name;
use connection::parts::WAITING_MOST;
use connection_members::path::PATH_VCI;
use connection_source::queue::offered;
use laws::refusals::Refusal;
use table::layout::WORDS;
use table_entry::load::load;
use table_members::change::set_cells;
use table_members::find::cells_at;
use table_names::find::find;
use table_store::store::update_queue;

// Refusals 11, 28, 15. A VCI out of its range meets 28 too. 15 looks at that member alone. The sum is never
// formed before it is known to fit.
pub fn offer_member(t: &mut [u64; WORDS], vpi: u32, vci: u32, cells: u64) -> Result<u32, Refusal>
    ensures { Meets whole_answer (λ s. offer_member_step s vpi vci cells) t.old t.new (accepted_as result) }
{
    let i = find(t, address_name(vpi, PATH_VCI)).ok_or(Refusal::NotOpen)?;
    let j = member_at(t, vpi, vci).ok_or(Refusal::NotAMember)?;
    let waiting = cells_at(t, j);
    if ((WAITING_MOST - waiting) as u64) < cells {
        return Err(Refusal::TooMuchData);
    }
    let more = cells as u32;
    let c = load(t, i);
    set_cells(t, j, waiting + more);
    let comparisons = update_queue(t, i, offered(more, c));
    Ok(comparisons)
}

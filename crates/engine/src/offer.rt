// Offering data (document 01, "Opening").
ghost use Rattle.model.specs.Returned.{accepted_as};
ghost use Rattle.model.specs.Step.{offer_step};
ghost use Rattle.engine.specs.Contract.{Meets, whole_answer};

use cell::name::VCIS;
use connection::parts::WAITING_MOST;
use connection_members::path::PATH_VCI;
use connection_source::queue::offered;
use laws::refusals::Refusal;
use table::layout::WORDS;
use table_entry::load::load;
use table_names::find::find;
use table_store::store::update_queue;

// As a count of cells to offer has it.
const MOST: u64 = WAITING_MOST as u64;

// Refusals 11, 28 on a path's own name (document 02, L13), 15. The sum is never formed before it is known to fit.
pub fn offer(t: &mut [u64; WORDS], name: u32, cells: u64) -> Result<u32, Refusal>
    ensures { Meets whole_answer (λ s. offer_step s name cells) t.old t.new (accepted_as result) }
{
    let i = find(t, name).ok_or(Refusal::NotOpen)?;
    if name % VCIS == PATH_VCI {
        return Err(Refusal::NotAMember);
    }
    let c = load(t, i);
    let waiting = c.queue.cells as u64;
    if MOST < waiting {
        return Err(Refusal::TooMuchData);
    }
    if MOST - waiting < cells {
        return Err(Refusal::TooMuchData);
    }
    let comparisons = update_queue(t, i, offered(cells as u32, c));
    Ok(comparisons)
}

// Closing a connection, with all that waits on it, and with the members of a path
// (document 01, "Opening"; document 02, L12 and L13).
ghost use Rattle.model.specs.Returned.{closed_as};
ghost use Rattle.model.specs.Step.{close_step};
ghost use Rattle.engine.specs.Contract.{Meets, whole_answer};

use laws::refusals::Refusal;
use model::answers::Closed;
use table::layout::WORDS;
use table_entry::load::load;
use table_members::change::remove_path;
use table_names::find::find;
use table_store::store::clear;

// Refusal 11. The answer counts the data cells that waited.
pub fn close(t: &mut [u64; WORDS], name: u32) -> Result<Closed, Refusal>
    ensures { Meets whole_answer (λ s. close_step s name) t.old t.new (closed_as result) }
{
    let i = find(t, name).ok_or(Refusal::NotOpen)?;
    let c = load(t, i);
    let cells = c.queue.cells as u64;
    let comparisons = clear(t, i, name);
    remove_path(t, name);
    Ok(Closed { comparisons, cells })
}

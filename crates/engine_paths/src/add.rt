// Adding a member to a path (document 02, L13).
ghost use Rattle.engine.specs.Contract.{Meets, whole_answer};
ghost use Rattle.model.specs.Returned.{done_as};
ghost use Rattle.model.specs.Step.{add_step};

use cell::name::{NO_NAME, address_name};
use connection_members::path::{FIRST_VCI, path_of};
use laws::refusals::Refusal;
use table::layout::WORDS;
use table_members::change;
use table_members::find::{find as find_member, has_room};
use table_names::find::find;

// Refusals 10, which looks at the VCI alone, 11, 12, 27, 26. It replays no match.
pub fn add(t: &mut [u64; WORDS], vpi: u32, vci: u32) -> Result<(), Refusal>
    ensures { Meets whole_answer (λ s. add_step s vpi vci) t.old t.new (done_as result) }
{
    if vci < FIRST_VCI {
        return Err(Refusal::LowVci);
    }
    let name = address_name(vpi, vci);
    find(t, path_of(name)).ok_or(Refusal::NotOpen)?;
    if NO_NAME <= name {
        return Err(Refusal::NotOpen);
    }
    if find(t, name).is_some() {
        return Err(Refusal::AlreadyOpen);
    }
    if find_member(t, name).is_some() {
        return Err(Refusal::AlreadyMember);
    }
    if !has_room(t) {
        return Err(Refusal::MembersFull);
    }
    change::add(t, name);
    Ok(())
}

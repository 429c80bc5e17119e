// Opening a channel or a path (document 01, "Opening"; document 02, L6, L7, L13 and L14).
ghost use Rattle.std.specs.Prelude.{◌≡◌, ◌&&◌};
ghost use Rattle.rate_params.specs.Params.{params_fit};
ghost use Rattle.cell.specs.Name.{address_fits};
ghost use Rattle.model.specs.Details.{open_answer};
ghost use Rattle.model.specs.Returned.{opened_as};
ghost use Rattle.model.specs.Step.{open_address, open_step, open_path_step};
ghost use Rattle.engine.specs.Contract.{Meets};
ghost use Rattle.engine.specs.Input.{JudgesInput};

use cell::name::{VCI_MOST, VPI_MOST, address_name};
use connection::parts::Connection;
use connection_members::path::{FIRST_VCI, PATH_VCI};
use laws::refusals::Refusal;
use model::answers::Opened;
use rate::code::codes_clear;
use rate::units::LATEST_TIME;
use rate_params::params::Params;
use table::layout::{LAST, WORDS};
use table_members::find::find as find_member;
use table_names::find::find;
use table_names::used::find_free;
use table_store::store::store;

// The ranges behind refusal 7.
#[tactic(auto, unfolding(cell::specs::Name::address_fits))]
fn in_range(vpi: u32, vci: u32, params: Params) -> bool
    ensures { result ≡ (address_fits vpi vci && params_fit params) }
{
    vpi <= VPI_MOST && vci <= VCI_MOST && params.fits()
}

// What every open refuses of its arguments alone: 19, 7, 29, 30, 8.
fn judge_input(vpi: u32, vci: u32, time: u64, params: Params) -> Result<(), Refusal>
    ensures { JudgesInput vpi vci time params result }
{
    if !codes_clear(params.pcr, params.mcr, params.icr) {
        return Err(Refusal::ReservedBit);
    }
    if !in_range(vpi, vci, params) {
        return Err(Refusal::Range);
    }
    if !params.tbe_fits() {
        return Err(Refusal::Tbe);
    }
    if !params.frtt_fits() {
        return Err(Refusal::Frtt);
    }
    if LATEST_TIME < time {
        return Err(Refusal::Time);
    }
    Ok(())
}

// What every open refuses: those, 12, 27, 13, 14.
fn open_address(
    t: &mut [u64; WORDS],
    vpi: u32,
    vci: u32,
    time: u64,
    params: Params,
) -> Result<Opened, Refusal>
    ensures { Meets open_answer (λ s. open_address s vpi vci time params) t.old t.new (opened_as result) }
{
    judge_input(vpi, vci, time, params)?;
    let name = address_name(vpi, vci);
    if find(t, name).is_some() {
        return Err(Refusal::AlreadyOpen);
    }
    if find_member(t, name).is_some() {
        return Err(Refusal::AlreadyMember);
    }
    let i = find_free(t).ok_or(Refusal::Full)?;
    if time < t[LAST] {
        return Err(Refusal::TimeBackward);
    }
    let leaf = i as u32;
    let comparisons = store(t, i, Connection::fresh(name, time, params));
    t[LAST] = time;
    Ok(Opened { comparisons, leaf })
}

// Opening a channel: 10 before all that, which looks at the VCI alone.
pub fn open(
    t: &mut [u64; WORDS],
    vpi: u32,
    vci: u32,
    time: u64,
    params: Params,
) -> Result<Opened, Refusal>
    ensures { Meets open_answer (λ s. open_step s vpi vci time params) t.old t.new (opened_as result) }
{
    if vci < FIRST_VCI {
        return Err(Refusal::LowVci);
    }
    open_address(t, vpi, vci, time, params)
}

// Opening the path of a VPI: without 10.
pub fn open_path(
    t: &mut [u64; WORDS],
    vpi: u32,
    time: u64,
    params: Params,
) -> Result<Opened, Refusal>
    ensures { Meets open_answer (λ s. open_path_step s vpi time params) t.old t.new (opened_as result) }
{
    open_address(t, vpi, PATH_VCI, time, params)
}

// A contract exported and its peak imported again. It is here for its contract, as `each_call` is. What the two
// exports ensure is what the promise on planning (exports/specs/Planning.antt) asks for.
ghost use Rattle.cell.specs.Name.{address_name};
ghost use Rattle.abr_composed.specs.Planning.{PeakBack};

use abr::planning::{abr_export, abr_import};
use abr_answers::planning::AbrImported;
use table::layout::WORDS;

pub fn peak_back(t: &[u64; WORDS], vpi: u32, vci: u32, refusal: &mut u32) -> AbrImported
    ensures { PeakBack (address_name vpi vci) t.now refusal.new result }
{
    let rates = abr_export(t, vpi, vci, refusal);
    abr_import(rates.pcr)
}

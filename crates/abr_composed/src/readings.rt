// The exported readings of everything in a row, for the same end as `each_call`.
ghost use Rattle.cell.specs.Name.{address_name};
ghost use Rattle.abr_composed.specs.AllReadings.{AllReadings};

use abr::connections::{abr_at, abr_member_at, abr_status};
use abr::link::abr_link;
use abr_answers::status::AbrConnection;
use table::layout::WORDS;

// The answer is that of reading the pair's status.
pub fn readings(t: &[u64; WORDS], vpi: u32, vci: u32, leaf: u32, number: u32) -> AbrConnection
    ensures { AllReadings (address_name vpi vci) leaf number t.now result }
{
    let inside = abr_at(t, leaf);
    let member = abr_member_at(t, number);
    let link = abr_link(t);
    abr_status(t, vpi, vci)
}

// Rates as doubles for planning tools, in cells per second (document 02, L8).
ghost use Rattle.cell.specs.Name.{address_name};
ghost use Rattle.abr.specs.Contract.{ReturnsContract};
ghost use Rattle.abr_answers.specs.Planning.{Imports};

use abr_answers::planning::{AbrExported, AbrImported};
use cell::name::address_name;
use engine::contract::read_contract;
use rate_doubles::export::Exported;
use rate_doubles::import::import;
use table::layout::WORDS;

// Refusal 11. The refusal, or 0, is always written.
pub fn abr_export(table: &[u64; WORDS], vpi: u32, vci: u32, refusal: &mut u32) -> Exported
    ensures { ReturnsContract (address_name vpi vci) table.now refusal.new result }
{
    let name = address_name(vpi, vci);
    let answer = AbrExported::from(read_contract(table, name));
    *refusal = answer.refusal;
    answer.rates
}

// Refusal 20.
pub fn abr_import(rate: f64) -> AbrImported
    ensures { Imports rate result }
{
    AbrImported::from(import(rate))
}

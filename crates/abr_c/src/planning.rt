// Rates as doubles for planning tools, in cells per second.
ghost use Rattle.cell.specs.Name.{address_name};
ghost use Rattle.abr.specs.Contract.{ReturnsContract};
ghost use Rattle.abr_answers.specs.Planning.{Imports};

use abr_answers::planning::AbrImported;
use rate_doubles::export::Exported;
use table::layout::WORDS;

#[unsafe(no_mangle)]
pub extern "C" fn abr_export(
    table: &[u64; WORDS],
    vpi: u32,
    vci: u32,
    refusal: &mut u32,
) -> Exported
    ensures { ReturnsContract (address_name vpi vci) table.now refusal.new result }
{
    abr::planning::abr_export(table, vpi, vci, refusal)
}

#[unsafe(no_mangle)]
pub extern "C" fn abr_import(rate: f64) -> AbrImported
    ensures { Imports rate result }
{
    abr::planning::abr_import(rate)
}

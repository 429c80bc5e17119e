// The calls on paths and their members (document 02, L13).
ghost use Rattle.model.specs.Step.{open_path_step, add_step, offer_member_step, remove_step};
ghost use Rattle.abr.specs.Contract.{ReturnsOpened, ReturnsAnswer, ReturnsClosed};

use abr_answers::calls::{AbrAnswer, AbrClosed};
use abr_answers::details::AbrOpened;
use engine::open::open_path;
use engine_paths::add::add;
use engine_paths::offer::offer_member;
use engine_paths::remove::remove;
use rate_params::params::Params;
use table::layout::WORDS;

// Refusals 19, 7, 29, 30, 8, 12, 13, 14.
pub fn abr_open_path(table: &mut [u64; WORDS], vpi: u32, time: u64, params: Params) -> AbrOpened
    ensures { ReturnsOpened (λ s. open_path_step s vpi time params) table.old table.new result }
{
    AbrOpened::from(open_path(table, vpi, time, params))
}

// Refusals 10, 11, 12, 27, 26. It makes no comparisons.
pub fn abr_add_member(table: &mut [u64; WORDS], vpi: u32, vci: u32) -> AbrAnswer
    ensures { ReturnsAnswer (λ s. add_step s vpi vci) table.old table.new result }
{
    AbrAnswer::from(add(table, vpi, vci))
}

// Refusals 11, 28, which a VCI over 65,535 meets too, 15.
pub fn abr_offer_member(table: &mut [u64; WORDS], vpi: u32, vci: u32, cells: u64) -> AbrAnswer
    ensures { ReturnsAnswer (λ s. offer_member_step s vpi vci cells) table.old table.new result }
{
    AbrAnswer::from(offer_member(table, vpi, vci, cells))
}

// Refusals 11, 28, which a VCI over 65,535 meets too.
pub fn abr_remove_member(table: &mut [u64; WORDS], vpi: u32, vci: u32) -> AbrClosed
    ensures { ReturnsClosed (λ s. remove_step s vpi vci) table.old table.new result }
{
    AbrClosed::from(remove(table, vpi, vci))
}

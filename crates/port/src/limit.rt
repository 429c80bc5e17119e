// A passing cell held to a rate (document 02, L10).
ghost use Rattle.std.specs.Prelude.{◌≡◌};
ghost use Rattle.laws.specs.Refusals.{refusal_or_0};
ghost use Rattle.port.specs.Limit.{passed, limit};

use crate::er::put_er;
use cell::read::Cell;
use cell_read::read::read;
use laws::refusals::Refusal;
use rate::code::{code_or_zero, rate_of};

// The rate is any number: one above the largest rate lowers no ER.
#[tactic(auto, unfolding(crate::specs::Limit::held))]
pub fn limit(rate: u64, cell: &mut [u8]) -> Result<(), Refusal>
    ensures { passed (refusal_or_0 result) cell.new ≡ limit rate cell.old }
{
    let Some(cell) = cell.as_mut_array() else {
        return Err(Refusal::Length);
    };
    match read(cell)? {
        Cell::Rm(f) if f.dir == 1 => {
            put_er(cell, code_or_zero(rate_of(f.er).min(rate)));
            Ok(())
        }
        _ => Ok(()),
    }
}

// Writing and reading a cell, without a table (document 01, "The cell, 53 octets"; document 02, L6).
ghost use Rattle.std.specs.Prelude.{◌≡◌};
ghost use Rattle.cell.specs.Reading.{reading};
ghost use Rattle.abr_answers.specs.Cells.{write_refusal, octets_after, cell_of};

use abr_answers::cells::AbrCell;
use cell::fields::Fields;
use cell_read::read::read;
use cell_write::write::write;
use laws::refusals::refusal_or_0;

// Refusals 1, 7.
pub fn abr_write_rm(rm: Fields, cell: &mut [u8]) -> u32
    ensures { (result ≡ write_refusal rm cell.old) × (cell.new ≡ octets_after rm cell.old) }
{
    refusal_or_0(write(cell, rm))
}

// Refusals 1, 2, 4, then 5, 6 and 19 for RM cells.
pub fn abr_read(cell: &[u8]) -> AbrCell
    ensures { result ≡ cell_of (reading cell.now) }
{
    AbrCell::from(read(cell))
}

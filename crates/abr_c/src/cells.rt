// Writing and reading a cell, without a table.
ghost use Rattle.std.specs.Prelude.{◌≡◌};
ghost use Rattle.cell.specs.Reading.{reading};
ghost use Rattle.abr_answers.specs.Cells.{write_refusal, octets_after, cell_of};

use abr_answers::cells::AbrCell;
use cell::fields::Fields;

#[unsafe(no_mangle)]
pub extern "C" fn abr_write_rm(rm: Fields, cell: &mut [u8]) -> u32
    ensures { (result ≡ write_refusal rm cell.old) × (cell.new ≡ octets_after rm cell.old) }
{
    abr::cells::abr_write_rm(rm, cell)
}

#[unsafe(no_mangle)]
pub extern "C" fn abr_read(cell: &[u8]) -> AbrCell
    ensures { result ≡ cell_of (reading cell.now) }
{
    abr::cells::abr_read(cell)
}

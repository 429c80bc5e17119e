// Writing a turned cell (document 01, "Turning cells round").
ghost use Rattle.std.specs.Prelude.{◌≡◌};
ghost use Rattle.cell.specs.Turning.{turned_cell};

use crate::put::{put_header, put_payload};
use cell::octets::CELL_OCTETS;
use cell_payload::payload::Payload;

// The cell that carries a turned payload.
pub fn put_turned(cell: &mut [u8; CELL_OCTETS], vpi: u32, vci: u32, p: Payload)
    ensures { cell.new ≡ turned_cell vpi vci p }
{
    put_header(cell, 0, vpi, vci);
    put_payload(cell, p);
}

// The fields of an RM cell out of its octets (document 01, "The cell, 53 octets"; document 02, L6 and L7).
ghost use Rattle.std.specs.Prelude.{◌≡◌, ◌+◌, ◌*◌, ◌/◌, ◌%◌};
ghost use Rattle.cell.specs.Header.{vpi_of, vci_of};
ghost use Rattle.cell.specs.Fields.{fields_of, rates_clear};

use cell::fields::Fields;
use cell::octets::CELL_OCTETS;
use rate::code::codes_clear;

// The eight bits from the low half of a to the high half of b: GFC is left out.
fn vpi(a: u8, b: u8) -> u32
    ensures { result ≡ a % 16 * 16 + b / 16 }
{
    (a % 16) as u32 * 16 + (b / 16) as u32
}

// The 16 bits from the low half of b to the high half of d.
fn vci(b: u8, c: u8, d: u8) -> u32
    ensures { result ≡ b % 16 * 4096 + c * 16 + d / 16 }
{
    (b % 16) as u32 * 4096 + c as u32 * 16 + (d / 16) as u32
}

// The VPI, from octets 1 and 2.
pub fn vpi_of(cell: &[u8; CELL_OCTETS]) -> u32
    ensures { result ≡ vpi_of cell.now }
{
    vpi(cell[0], cell[1])
}

// The VCI, from octets 2 to 4.
pub fn vci_of(cell: &[u8; CELL_OCTETS]) -> u32
    ensures { result ≡ vci_of cell.now }
{
    vci(cell[1], cell[2], cell[3])
}

// Whether bit 15 is 0 in ER, CCR and MCR.
pub fn rates_clear(cell: &[u8; CELL_OCTETS]) -> bool
    ensures { result ≡ rates_clear cell.now }
{
    let er = u16::from_be_bytes([cell[7], cell[8]]) as u32;
    let ccr = u16::from_be_bytes([cell[9], cell[10]]) as u32;
    let mcr = u16::from_be_bytes([cell[11], cell[12]]) as u32;
    codes_clear(er, ccr, mcr)
}

// What an RM cell carries.
pub fn fields_of(cell: &[u8; CELL_OCTETS]) -> Fields
    ensures { result ≡ fields_of cell.now }
{
    let marks = cell[6] as u32;
    Fields {
        vpi: vpi_of(cell),
        vci: vci_of(cell),
        dir: marks / 128 % 2,
        bn: marks / 64 % 2,
        ci: marks / 32 % 2,
        ni: marks / 16 % 2,
        ra: marks / 8 % 2,
        er: u16::from_be_bytes([cell[7], cell[8]]) as u32,
        ccr: u16::from_be_bytes([cell[9], cell[10]]) as u32,
        mcr: u16::from_be_bytes([cell[11], cell[12]]) as u32,
        ql: u32::from_be_bytes([cell[13], cell[14], cell[15], cell[16]]),
        sn: u32::from_be_bytes([cell[17], cell[18], cell[19], cell[20]]),
    }
}

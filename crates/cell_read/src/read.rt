// Reading a cell (document 01, "The cell, 53 octets" and "Refused because of the input"; document 02, L6 and L7).
ghost use Rattle.std.specs.Prelude.{◌≡◌, ◌/◌, ◌%◌, leb, eqb, MatchResult};
ghost use Rattle.cell.specs.Header.{type_of, header_right};
ghost use Rattle.cell.specs.Fields.{crc_right};
ghost use Rattle.cell.specs.Read.{read_as};
ghost use Rattle.cell.specs.Reading.{reading};
ghost use Rattle.cell.specs.Refusals.{header_refusal, rest_refusal};
ghost use Rattle.cell_read.specs.RefusedAsRead.{RefusedAsRead};
ghost use Rattle.laws.specs.Refusals.{number, refusal_or_0};

use crate::fields::{fields_of, rates_clear, vci_of, vpi_of};
use cell::octets::CELL_OCTETS;
use cell::read::Cell;
use cell_crc::crc10::crc10;
use cell_crc::header::header_check;
use cell_payload::payload::payload_at;
use laws::refusals::Refusal;

// Whether octet 5 is right.
fn header_right(cell: &[u8; CELL_OCTETS]) -> bool
    ensures { result ≡ header_right cell.now }
{
    cell[4] == header_check(cell[0], cell[1], cell[2], cell[3])
}

// Whether the CRC-10 is right: it is the low ten bits of the payload's last word.
fn crc_right(cell: &[u8; CELL_OCTETS]) -> bool
    ensures { result ≡ crc_right cell.now }
{
    let p = payload_at(cell);
    p.f % 1024 == crc10(p)
}

// The octets as those of one cell, whose header is that of a data or an RM cell; else the refusal that it meets.
#[tactic(auto, unfolding(cell::specs::Refusals::header_refusal))]
pub fn header_checked(cell: &[u8]) -> Result<&[u8; CELL_OCTETS], Refusal>
    ensures { MatchResult result (λ o. (o.now ≡ cell.now) × (0 ≡ header_refusal o.now)) (λ r. number r ≡ header_refusal cell.now) }
{
    let Ok(cell) = <&[u8; CELL_OCTETS]>::try_from(cell) else {
        return Err(Refusal::Length);
    };
    if !header_right(cell) {
        return Err(Refusal::HeaderCheck);
    }
    match cell[3] / 2 % 8 {
        0..=3 | 6 => Ok(cell),
        _ => Err(Refusal::PayloadType),
    }
}

// The payload types 0 to 3 are those of data cells.
pub fn is_data(cell: &[u8; CELL_OCTETS]) -> bool
    ensures { result ≡ leb (type_of cell.now) 3 }
{
    cell[3] / 2 % 8 <= 3
}

// A data cell's EFCI is the middle bit of its payload type.
pub fn efci_of(cell: &[u8; CELL_OCTETS]) -> bool
    ensures { result ≡ eqb (type_of cell.now / 2 % 2) 1 }
{
    cell[3] / 2 % 8 / 2 % 2 == 1
}

// The refusal that the rest of an RM cell meets.
#[tactic(auto, unfolding(cell::specs::Refusals::rest_refusal))]
pub fn rm_refusal(cell: &[u8; CELL_OCTETS]) -> Result<(), Refusal>
    ensures { refusal_or_0 result ≡ rest_refusal cell.now }
{
    if !crc_right(cell) {
        return Err(Refusal::Crc);
    }
    if cell[5] != 1 {
        return Err(Refusal::Protocol);
    }
    if !rates_clear(cell) {
        return Err(Refusal::ReservedBit);
    }
    Ok(())
}

// The refusal that reading the cell meets. The steps are those of `read`, without the fields, which a port does not
// pay for twice.
pub fn refusal(cell: &[u8]) -> Result<(), Refusal>
    ensures { RefusedAsRead cell.now (refusal_or_0 result) }
{
    let cell = header_checked(cell)?;
    if is_data(cell) {
        return Ok(());
    }
    rm_refusal(cell)
}

// Reads any octets as a cell. Inlined, so that a caller pays for what it looks at alone: `abr_read` of a data cell 30
// instructions less, `abr_limit` 79.
#[inline(always)]
pub fn read(cell: &[u8]) -> Result<Cell, Refusal>
    ensures { read_as result ≡ reading cell.now }
{
    let cell = header_checked(cell)?;
    if is_data(cell) {
        return Ok(Cell::Data {
            vpi: vpi_of(cell),
            vci: vci_of(cell),
            efci: efci_of(cell),
        });
    }
    rm_refusal(cell)?;
    Ok(Cell::Rm(fields_of(cell)))
}

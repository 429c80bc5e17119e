// Cells with changed octets
// (document 01, "The cell, 53 octets" and "Refused because of the input"; document 02, L6 and L7).
ghost use Rattle.std.specs.Prelude.{◌≡◌, length};

use crate::cells::{reading, sample};
use cell_crc::header::header_check;
use cell_payload::payload::payload_at;
use cell_write::put::put_payload;
use cell_write::with_crc::with_crc;
use cell_write::write::write;
use std::io;

// The sample on this VCI of VPI 0.
fn written(vci: u32) -> [u8; 53]
    ensures { 53 ≡ length result }
{
    let mut cell = [0u8; 53];
    let _ = write(&mut cell, sample(0, vci, 0, 0x7fff));
    cell
}

// A cell with its CRC-10 made right.
fn with_right_crc(rt: &impl Print, mut cell: [u8; 53]) -> io::Result<()> {
    let p = payload_at(&cell);
    put_payload(&mut cell, with_crc(p));
    reading(rt, &cell)
}

// The sample with another octet 4, and another octet at an index below 53. It is read with its checks as they were,
// then with octet 5 made right, then with the CRC-10 made right too.
fn row(rt: &impl Print, vci: u32, d: u8, index: usize, x: u8) -> io::Result<()> {
    let mut cell = written(vci);
    cell[3] = d;
    cell[index % 53] = x;
    reading(rt, &cell)?;
    cell[4] = header_check(cell[0], cell[1], cell[2], d);
    reading(rt, &cell)?;
    with_right_crc(rt, cell)
}

// Octet 5, and an octet that it covers. VPI 1 and 128, which are read. Payload types 4, 5 and 7.
// The first octet that the CRC-10 covers (the protocol), a middle one and the last. Bit 15 of ER, CCR and MCR.
// What is ignored when read: GFC, CLP, reserved bits of octet 7, octet 22, six bits of octet 52.
// Data cells of payload types 0 to 3, whatever octet 6 is.
pub fn show(rt: &impl Print) -> io::Result<()> {
    row(rt, 0x1234, 0x4c, 4, 0x00)?;
    row(rt, 0x1234, 0x4c, 0, 0x10)?;
    row(rt, 0x1234, 0x4c, 1, 0x11)?;
    row(rt, 0x1234, 0x4c, 0, 0x08)?;
    row(rt, 0x1234, 0x48, 0, 0x00)?;
    row(rt, 0x1234, 0x4a, 0, 0x00)?;
    row(rt, 0x1234, 0x4e, 0, 0x00)?;
    row(rt, 0x1234, 0x4c, 5, 0x02)?;
    row(rt, 0x1234, 0x4c, 29, 0x6b)?;
    row(rt, 0x1234, 0x4c, 52, 0x00)?;
    row(rt, 0x1234, 0x4c, 7, 0xff)?;
    row(rt, 0x1234, 0x4c, 9, 0xd3)?;
    row(rt, 0x1234, 0x4c, 11, 0xc0)?;
    row(rt, 0x1234, 0x4c, 0, 0xf0)?;
    row(rt, 0x1234, 0x4d, 0, 0x00)?;
    row(rt, 0x1234, 0x4c, 6, 0x0f)?;
    row(rt, 0x1234, 0x4c, 21, 0x00)?;
    row(rt, 0x1234, 0x4c, 51, 0xfc)?;
    row(rt, 42, 0xa0, 5, 0x00)?;
    row(rt, 42, 0xa2, 5, 0x00)?;
    row(rt, 42, 0xa4, 5, 0x00)?;
    row(rt, 42, 0xa6, 5, 0x00)
}

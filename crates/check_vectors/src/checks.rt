// The two checks on published vectors (document 01, "The cell, 53 octets").
ghost use Rattle.std.specs.Prelude.{◌≡◌};
ghost use Rattle.std.specs.Int.Bits.{bit_xor};
ghost use Rattle.cell_crc.specs.Remainder.{remainder, octet_bits};
ghost use Rattle.check_vectors.specs.Message.{message};

use crate::print;
use cell_crc::crc10::crc10;
use cell_crc::header::header_check;
use cell_payload::payload::Payload;
use std::io;

// CRC-8/I-432-1 of the nine octets, four at a time. Between the steps the exclusive-or with 0x55 is taken back. The
// remainder so far goes into the next octet. Leading zero octets have no remainder.
fn crc8_check() -> u8
    ensures { (result ≡ bit_xor (remainder 8 0x107 (octet_bits message)) 0x55) × (result ≡ 0xA1) }
{
    let four = header_check(b'1', b'2', b'3', b'4') ^ 0x55;
    let eight = header_check(four ^ b'5', b'6', b'7', b'8') ^ 0x55;
    header_check(0, 0, 0, eight ^ b'9')
}

// CRC-10/ATM of the nine octets, as the last of a payload's 374 checked bits: ten places up in the last two words.
// The division starts from 0, so the zero bits before them leave nothing.
fn crc10_check() -> u64
    ensures { (result ≡ remainder 10 0x633 (octet_bits message)) × (result ≡ 0x199) }
{
    crc10(Payload {
        a: 0,
        b: 0,
        c: 0,
        d: 0,
        e: 0xc4c8,
        f: 0xccd0d4d8dce0e400,
    })
}

// Octet 5 of the cell headers that ITU-T I.432 assigns: unassigned, idle, physical layer OAM F1 and F3. Then
// the checks of the nine octets.
pub fn show(rt: &impl Print) -> io::Result<()> {
    let unassigned = header_check(0, 0, 0, 0x00);
    let idle = header_check(0, 0, 0, 0x01);
    let first = header_check(0, 0, 0, 0x03);
    let third = header_check(0, 0, 0, 0x09);
    print::octets(rt, &[unassigned, idle, first, third, crc8_check()])?;
    print::codes(rt, &[crc10_check() as u32])
}

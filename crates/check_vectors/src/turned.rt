// Forward cells turned round (document 01, "Turning cells round" and "Traps in this trade"; document 02, L6).
use crate::cells::reading;
use cell_payload::payload::Payload;
use cell_turn::turn::turn;
use cell_write::turned::put_turned;
use cell_write::with_crc::with_crc;
use std::io;

// A forward cell with this octet 7, and with bits that are to stay: an unusual reserved octet, and ones in the six
// reserved bits. It is turned at this level, with this saved EFCI.
fn row(rt: &impl Print, octet: u8, level: u32, efci: bool) -> io::Result<()> {
    let p = Payload {
        a: 0x01007fff53e84000 + octet as u64 * 0x1000000000000,
        b: 0x0123456789abcdef,
        c: 0x6a6a6a6a6a6a6a6a,
        d: 0x6a6a6a6a006a6a6a,
        e: 0x6a6a6a6a6a6a6a6a,
        f: 0x6a6a6a6a6a6afc00,
    };
    let mut cell = [0u8; 53];
    put_turned(&mut cell, 0xa5, 0x1234, turn(with_crc(p), level, efci));
    reading(rt, &cell)
}

// Each level with each saved EFCI.
fn levels(rt: &impl Print, octet: u8) -> io::Result<()> {
    row(rt, octet, 0, false)?;
    row(rt, octet, 0, true)?;
    row(rt, octet, 1, false)?;
    row(rt, octet, 1, true)?;
    row(rt, octet, 2, false)?;
    row(rt, octet, 2, true)
}

// No mark as received; BN with RA and the reserved bits; CI and NI, which no turning clears; BN and NI.
pub fn show(rt: &impl Print) -> io::Result<()> {
    levels(rt, 0x00)?;
    levels(rt, 0x4f)?;
    levels(rt, 0x30)?;
    levels(rt, 0x5f)
}

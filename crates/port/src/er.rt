// Writes a new ER into a cell, with its CRC-10 (document 02, L10).
ghost use Rattle.std.specs.Prelude.{◌≡◌, ◌++◌, ◌+◌, ◌*◌, ◌%◌, ◌≤◌, ◌<◌, take};
ghost use Rattle.cell_crc.specs.Checks.{payload_check};
ghost use Rattle.cell_payload.specs.Payload.{octets_of};
ghost use Rattle.cell.specs.Octets.{pair, payload};
ghost use Rattle.port.specs.Limit.{with_er};
ghost use Rattle.port.specs.ErAlone.{er_alone};

use cell::octets::CELL_OCTETS;
use cell_crc::crc10::crc10;
use cell_payload::payload::Payload;

// The CRC-10 of a payload with no bits set but these, in the two octets of ER.
fn er_check(high: u8, low: u8) -> u64
    ensures { (result ≡ payload_check (octets_of (er_alone (high * 256 + low)))) × (result < 1024) }
{
    crc10(Payload {
        a: (high as u64 * 256 + low as u64) * 0x100000000,
        b: 0,
        c: 0,
        d: 0,
        e: 0,
        f: 0,
    })
}

// The CRC-10 is linear, so that the bits that change in ER say what changes in the CRC-10, which was found right.
pub fn put_er(cell: &mut [u8; CELL_OCTETS], code: u32)
    requires { (code ≤ 65535) × (pair 52 cell.old % 1024 ≡ payload_check (payload cell.old)) }
    ensures { cell.new ≡ take 5 cell.old ++ with_er code (payload cell.old) }
{
    let high = (code / 256) as u8;
    let low = (code % 256) as u8;
    let check = er_check(cell[7] ^ high, cell[8] ^ low);
    let six_and_two = cell[51] ^ (check / 256) as u8;
    let last = cell[52] ^ (check % 256) as u8;
    cell[7] = high;
    cell[8] = low;
    cell[51] = six_and_two;
    cell[52] = last;
}

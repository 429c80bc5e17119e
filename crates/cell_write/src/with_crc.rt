// The CRC-10 of a payload written new (document 01, "The cell, 53 octets").
ghost use Rattle.std.specs.Prelude.{◌≡◌};
ghost use Rattle.cell_payload.specs.Payload.{octets_of, payload_of};
ghost use Rattle.cell.specs.Fields.{with_crc, CrcMatches};

use cell_crc::crc10::crc10;
use cell_payload::payload::Payload;

// The CRC-10 takes the low ten bits of the last word.
pub fn with_crc(p: Payload) -> Payload
    ensures { (result ≡ payload_of (with_crc (octets_of p))) × CrcMatches result }
{
    let check = crc10(p);
    Payload {
        a: p.a,
        b: p.b,
        c: p.c,
        d: p.d,
        e: p.e,
        f: p.f / 1024 * 1024 + check,
    }
}

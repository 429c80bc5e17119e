// A received forward cell turned round (document 01, "Turning cells round").
ghost use Rattle.std.specs.Prelude.{◌≡◌, cond, ◌≤◌, ◌<◌, ◌%◌};
ghost use Rattle.cell_payload.specs.Payload.{octets_of, payload_of};
ghost use Rattle.cell_crc.specs.Checks.{payload_check};
ghost use Rattle.cell.specs.Fields.{CrcMatches};
ghost use Rattle.cell.specs.Turning.{turned_marks, marks_alone, turned_payload};

use cell_payload::payload::Payload;

// A bit that a mark sets; without the mark, the low bit of x.
fn raised(mark: bool, x: u64) -> u64
    ensures { (result ≡ cond mark 1 (x % 2)) × (result ≤ 1) }
{
    if mark {
        return 1;
    }
    x % 2
}

// Octet 7.
#[tactic(auto, unfolding(cell::specs::Turning::turned_marks))]
fn turned_marks(level: u32, mark: bool, x: u64) -> u64
    ensures { (result ≡ turned_marks level mark x) × (result < 256) }
{
    let ci = raised(mark | (level == 2), x / 32);
    let ni = raised(level == 1, x / 16);
    128 + ci * 32 + ni * 16 + x % 16
}

// The CRC-10 of a payload with only these bits set, the four high ones of octet 7: the remainders of
// x^375, x^374, x^373 and x^372.
fn marks_check(n: u64) -> u64
    requires { n < 16 }
    ensures { (result ≡ payload_check (octets_of (marks_alone n))) × (result < 1024) }
{
    (n / 8 * 0x18b) ^ (n / 4 % 2 * 0x3dc) ^ (n / 2 % 2 * 0x1ee) ^ (n % 2 * 0xf7)
}

// The payload to send back, from the received one. Octet 7 is the second of the first word. The CRC-10 is linear.
// So the change in octet 7 gives the change in the received CRC-10, which was found right.
pub fn turn(p: Payload, level: u32, mark: bool) -> Payload
    requires { CrcMatches p }
    ensures { result ≡ payload_of (turned_payload level mark (octets_of p)) }
{
    let x = p.a / 0x1000000000000 % 256;
    let changed = (x ^ turned_marks(level, mark, x)) / 16;
    Payload {
        a: p.a ^ (changed * 0x10000000000000),
        b: p.b,
        c: p.c,
        d: p.d,
        e: p.e,
        f: p.f ^ marks_check(changed),
    }
}

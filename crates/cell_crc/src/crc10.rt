// The CRC-10 of a payload, without a table. (Document 01, "The cell, 53 octets".)
// Its generator is (x^9 + x^4 + 1) (x + 1). By the first factor x^9 is x^4 + 1, so x^18 is x^8 + 1, and so on up to
// x^288, which is x^128 + 1. So the payload's bits from x^288 on are added at x^128 and at 1. Then those from x^144
// on are added at x^64 and at 1, until nine bits are left. By the second factor the remainder is the parity. The
// two make the remainder by the generator.
ghost use Rattle.std.specs.Prelude.{◌≡◌, ◌<◌, ◌^◌};
ghost use Rattle.cell_crc.specs.Remainder.{bits, divide};
ghost use Rattle.cell_crc.specs.Checks.{payload_check};
ghost use Rattle.cell_payload.specs.Payload.{octets_of};
ghost use Rattle.cell_crc.specs.Folding.{trinomial, wide};

use cell_payload::payload::Payload;

// x^288 is x^128 + 1.
fn fold288(p: Payload) -> Payload
    ensures { (trinomial (wide result) ≡ trinomial (wide p)) × (wide result < 2 ^ 288) }
{
    let s = p.a / 0x100000000;
    let t = p.a % 0x100000000 * 0x100000000 + p.b / 0x100000000;
    Payload {
        a: 0,
        b: p.b % 0x100000000,
        c: p.c ^ s,
        d: p.d ^ t,
        e: p.e ^ s,
        f: p.f ^ t,
    }
}

// x^144 is x^64 + 1.
fn fold144(p: Payload) -> Payload
    requires { wide p < 2 ^ 288 }
    ensures { (trinomial (wide result) ≡ trinomial (wide p)) × (wide result < 2 ^ 208) × (wide p < 2 ^ 208 → wide result < 2 ^ 144) }
{
    let s = p.b / 0x10000;
    let t = p.b % 0x10000 * 0x1000000000000 + p.c / 0x10000;
    let u = p.c % 0x10000 * 0x1000000000000 + p.d / 0x10000;
    Payload {
        a: 0,
        b: 0,
        c: s,
        d: (p.d % 0x10000) ^ (s ^ t),
        e: p.e ^ (t ^ u),
        f: p.f ^ u,
    }
}

// x^72 is x^32 + 1.
fn fold72(p: Payload) -> Payload
    requires { wide p < 2 ^ 144 }
    ensures { (trinomial (wide result) ≡ trinomial (wide p)) × (wide result < 2 ^ 104) × (wide p < 2 ^ 104 → wide result < 2 ^ 72) }
{
    let s = p.d / 0x100;
    let t = p.d % 0x100 * 0x100000000000000 + p.e / 0x100;
    let e = (p.e % 0x100) ^ (s ^ (s * 0x100000000 + t / 0x100000000));
    let f = p.f ^ (t ^ (t % 0x100000000 * 0x100000000));
    Payload {
        a: 0,
        b: 0,
        c: 0,
        d: 0,
        e: e,
        f: f,
    }
}

// x^36 is x^16 + 1: what is left fits a word.
fn word36(p: Payload) -> u64
    requires { wide p < 2 ^ 72 }
    ensures { (trinomial result ≡ trinomial (wide p)) × (result < 2 ^ 52) }
{
    let h = p.e * 0x10000000 + p.f / 0x1000000000;
    (p.f % 0x1000000000) ^ (h ^ (h * 0x10000))
}

// The same in a word.
fn fold36(v: u64) -> u64
    requires { v < 2 ^ 52 }
    ensures { (trinomial result ≡ trinomial v) × (result < 2 ^ 36) }
{
    let h = v / 0x1000000000;
    (v % 0x1000000000) ^ (h ^ (h * 0x10000))
}

// x^18 is x^8 + 1.
fn fold18(v: u64) -> u64
    requires { v < 2 ^ 36 }
    ensures { (trinomial result ≡ trinomial v) × (result < 2 ^ 26) × (v < 2 ^ 26 → result < 2 ^ 18) }
{
    let h = v / 0x40000;
    (v % 0x40000) ^ (h ^ (h * 0x100))
}

// x^9 is x^4 + 1.
fn fold9(v: u64) -> u64
    requires { v < 2 ^ 18 }
    ensures { (trinomial result ≡ trinomial v) × (result < 2 ^ 13) × (v < 2 ^ 13 → result < 2 ^ 9) }
{
    let h = v / 0x200;
    (v % 0x200) ^ (h ^ (h * 0x10))
}

// The remainder of six words by x^9 + x^4 + 1.
fn remainder9(p: Payload) -> u64
    ensures { (result ≡ trinomial (wide p)) × (result < 512) }
{
    let v = fold72(fold72(fold144(fold144(fold288(p)))));
    fold9(fold9(fold18(fold18(fold36(word36(v))))))
}

// The remainder of a word by x + 1.
fn parity(z: u64) -> u64
    ensures { (result ≡ divide 1 3 0 (bits 64 z)) × (result < 2) }
{
    u64::count_ones(z) as u64 % 2
}

// The remainder of six words by the generator.
fn remainder10(p: Payload) -> u64
    ensures { (result ≡ divide 10 0x633 0 (bits 384 (wide p))) × (result < 1024) }
{
    let q = p.a ^ p.b ^ p.c ^ p.d ^ p.e ^ p.f;
    let t = remainder9(p);
    t ^ (parity(t ^ q) * 0x211)
}

// The CRC-10 of a payload, whose own ten bits at the end do not count.
pub fn crc10(p: Payload) -> u64
    ensures { (result ≡ payload_check (octets_of p)) × (result < 1024) }
{
    remainder10(Payload {
        a: p.a,
        b: p.b,
        c: p.c,
        d: p.d,
        e: p.e,
        f: p.f / 1024 * 1024,
    })
}

// The header check by a formula and without a table (document 01, "The cell, 53 octets"; document 02, L3).
// By the generator x^8 is x^2 + x + 1, so x^16 is its square, x^4 + x^2 + 1. Octets 1 and 2 times x^16, added to octets
// 3 and 4, are 20 bits. Only these, times x^8, are reduced to the eight bits of octet 5.
ghost use Rattle.std.specs.Prelude.{◌≡◌, [], ◌∷◌, ◌<◌};
ghost use Rattle.cell_crc.specs.Remainder.{bits, remainder};
ghost use Rattle.cell_crc.specs.Checks.{header_check};
ghost use Rattle.cell_crc.specs.Formula.{times, times_square};

// v times x^2 + x + 1, without carries: its remainder is that of v times x^8.
fn times(v: u32) -> u32
    requires { v < 0x100000 }
    ensures { result ≡ times v }
{
    v ^ (v * 2) ^ (v * 4)
}

// v times x^4 + x^2 + 1: its remainder is that of v times x^16.
fn times_square(v: u32) -> u32
    requires { v < 0x100000 }
    ensures { result ≡ times_square v }
{
    v ^ (v * 4) ^ (v * 16)
}

// The remainder of v times x^8: the bits of its product above the octet, times x^2 + x + 1, are added to the low eight.
// What is then above the octet is known beforehand, from v times x^16. Added to v, it is taken away with the rest.
fn remainder8(v: u32) -> u8
    requires { v < 0x100000 }
    ensures { result ≡ remainder 8 0x107 (bits 20 v) }
{
    let above = times_square(v) / 0x10000;
    let product = times(v ^ above);
    ((product ^ times(product / 256)) % 256) as u8
}

// Octet 5 of a header, from octets 1 to 4.
pub fn header_check(a: u8, b: u8, c: u8, d: u8) -> u8
    ensures { result ≡ header_check (a ∷ b ∷ c ∷ d ∷ []) }
{
    let first = times_square(a as u32 * 256 + b as u32);
    remainder8(first ^ (c as u32 * 256) ^ d as u32) ^ 0x55
}

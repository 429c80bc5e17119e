// The 16-bit rate code (document 01, "Units and the 16-bit rate code"; document 02, L7).
ghost use Rattle.std.specs.Prelude.{◌≡◌};
ghost use Rattle.rate.specs.Code.{reserved_clear, codes_clear, rate_of, code_or_zero, coded};

use crate::units::LARGEST_RATE;
use laws::refusals::Refusal;

// Of the 16 bits of a code, bit 14 is nz and bit 15 is reserved.
pub const NZ: u32 = 16384;

pub const RESERVED: u32 = 32768;

// The greatest number of 16 bits, and the greatest code whose bit 15 is 0.
pub const SIXTEEN_BITS_MOST: u32 = 65535;

pub const CODE_MOST: u32 = 32767;

// Whether bit 15 of a code is 0; a number over 16 bits is no code.
#[tactic(auto, unfolding(crate::specs::Code::reserved_clear))]
pub fn reserved_clear(code: u32) -> bool
    ensures { result ≡ reserved_clear code }
{
    (code < RESERVED) | (SIXTEEN_BITS_MOST < code)
}

// The same of three codes.
#[tactic(auto, unfolding(crate::specs::Code::codes_clear))]
pub fn codes_clear(a: u32, b: u32, c: u32) -> bool
    ensures { result ≡ codes_clear a b c }
{
    reserved_clear(a) & (reserved_clear(b) & reserved_clear(c))
}

// The rate that a code stands for, by its low 15 bits.
#[tactic(auto, unfolding(crate::specs::Code::rate_of))]
pub fn rate_of(code: u32) -> u64
    ensures { result ≡ rate_of code }
{
    if code / NZ % 2 == 1 {
        (512 + (code % 512) as u64) << (code / 512 % 32)
    } else {
        0
    }
}

// The code of a rate up to the largest, and 0 for what is no rate. The exponent is read off the highest binary
// digit: a rate with ten of them has exponent 0, and each digit more adds 1.
// No Option: 0 is the code of rate 0, and the definition code_or_zero has it for a rate above the largest too.
#[tactic(auto, using(crate::proofs::Octaves::code_steps), unfolding(crate::specs::Code::code_or_zero))]
pub fn code_or_zero(rate: u64) -> u32
    ensures { result ≡ code_or_zero rate }
{
    if LARGEST_RATE < rate {
        return 0;
    }
    if rate < 512 {
        return 0;
    }
    let e = rate.ilog2() - 9;
    NZ + e * 512 + ((rate >> e) - 512) as u32
}

// Coding a rate, with refusal 9 above the largest.
#[tactic(auto, using(crate::proofs::Octaves::or_zero_code), unfolding(crate::specs::Code::coded))]
pub fn code_of(rate: u64) -> Result<u32, Refusal>
    ensures { result ≡ coded rate }
{
    if LARGEST_RATE < rate {
        return Err(Refusal::TooLarge);
    }
    Ok(code_or_zero(rate))
}

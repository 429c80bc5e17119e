// The rate code of a double (document 02, L8).
ghost use Rattle.std.specs.Prelude.{◌≡◌, ◌/◌, ◌^◌, ◌≤◌};
ghost use Rattle.rate_doubles.specs.Import.{import_of};
ghost use Rattle.rate_doubles.specs.Pattern.{pattern_split};

use laws::refusals::Refusal;

// The greatest code not above the double, and what is left of it. The remainder is in cells per second, as the
// double is.
#[derive(Clone, Copy)]
pub enum Imported {
    Exact(u32),
    Below { code: u32, remainder: f64 },
}

// 2^52 and 2^43. A double has 52 binary digits after its leading one. The lower 43 of them do
// not fit into a code's mantissa.
const DIGITS: u64 = 0x10_0000_0000_0000;

const LOW_DIGITS: u64 = 0x800_0000_0000;

// The bit pattern of a double from 1 on and below 2^32. Its exponent field and its leading digits are the code.
// The digits below them, at their place, are the remainder.
#[tactic(auto, using(crate::proofs::Digits::split_steps))]
fn split(bits: u64) -> Imported
    requires { (1023 ≤ bits / 2 ^ 52) × (bits / 2 ^ 52 ≤ 1054) }
    ensures { result ≡ pattern_split bits }
{
    let e = bits / DIGITS - 1023;
    let digits = bits % DIGITS;
    let low = digits % LOW_DIGITS;
    let code = (0x4000 + e * 512 + digits / LOW_DIGITS) as u32;
    if low == 0 {
        return Imported::Exact(code);
    }
    let unit = DIGITS >> e;
    Imported::Below {
        code,
        remainder: (low as f64) / (unit as f64),
    }
}

// Refusal 20. Both zeros are equal to 0.0, and what is not a number passes no comparison.
pub fn import(x: f64) -> Result<Imported, Refusal>
    ensures { result ≡ import_of x }
{
    if x == 0.0 {
        Ok(Imported::Exact(0))
    } else if x >= 1.0 && x < 4294967296.0 {
        Ok(split(x.to_bits()))
    } else {
        Err(Refusal::Double)
    }
}

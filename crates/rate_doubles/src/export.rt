// A contract's rates as doubles (document 02, L8).
ghost use Rattle.std.specs.Prelude.{◌<◌, ◌^◌};
ghost use Rattle.rate.specs.Code.{rate_of};
ghost use Rattle.rate_doubles.specs.Export.{IsRate, ExportsExactly};

use rate::code::rate_of;

// In cells per second.
#[repr(C)]
#[derive(Clone, Copy)]
pub struct Exported {
    pub pcr: f64,
    pub mcr: f64,
    pub icr: f64,
}

// The rate over 512, with no rounding: a double keeps 53 binary digits, and 512 is a power of two.
fn in_cells(rate: u64) -> f64
    requires { rate < 2 ^ 42 }
    ensures { IsRate result rate }
{
    (rate as f64) / 512.0
}

#[tactic(auto, using(crate::proofs::Fractions::export_steps))]
fn code_in_cells(code: u32) -> f64
    ensures { IsRate result (rate_of code) }
{
    in_cells(rate_of(code))
}

// The rates of three codes.
pub fn export(pcr: u32, mcr: u32, icr: u32) -> Exported
    ensures { ExportsExactly pcr mcr icr result }
{
    Exported {
        pcr: code_in_cells(pcr),
        mcr: code_in_cells(mcr),
        icr: code_in_cells(icr),
    }
}

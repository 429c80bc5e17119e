// Rate codes, gaps and the four moves of the allowed rate
// (document 01, "Units and the 16-bit rate code", "Four moves of the allowed rate", "Slots" and "Checked values").
use crate::print;
use rate::code::{code_of, rate_of};
use rate::gap::gap;
use rate_moves::moves::Rate;
use rate_params::params::Params;
use std::io;

// The rate of a code and the gap at an allowed rate; then the code of a rate and 0, or 0 and its refusal.
fn coded(rt: &impl Print, code: u32, acr: u64, rate: u64) -> io::Result<()> {
    print::rates(rt, &[rate_of(code), gap(acr)])?;
    match code_of(rate) {
        Ok(code) => print::codes(rt, &[code, 0]),
        Err(refusal) => print::codes(rt, &[0, refusal.number()]),
    }
}

// The house set with MCR 512, ICR 1,024 and another c: ACR as opened, and what each move makes of this ACR.
fn moved(
    rt: &impl Print,
    acr: u64,
    passed: u64,
    c: u32,
    y: u32,
    pcr: u32,
    ci: bool,
    ni: bool,
    er: u32,
) -> io::Result<()> {
    let mut p = Params::house(pcr, 0x4000, 0x4200);
    p.c = c;
    let q = Rate { acr, params: p };
    let opened = Rate::opened(p);
    let first = q.first_cell();
    let idle = q.idle(passed);
    let unanswered = q.unanswered(y);
    let feedback = q.feedback(ci, ni, rate_of(er));
    print::rates(
        rt,
        &[
            opened.acr,
            first.acr,
            idle.acr,
            unanswered.acr,
            feedback.acr,
        ],
    )
}

// Codes: the checked values, the highest mantissa of a lower exponent, nz 0 with every lower bit 1.
// Gaps: the checked values, the slowest and the fastest rate.
// Rates: the checked values, both ends of the range and what lies above it.
// Moves: the three checked values of feedback, the third at ADTF and one below CRM. Past ADTF and at
// CRM, with CDF zero, and below ICR. Where both cuts would pass MCR. No mark, NI, NI with a lower
// ER, an ER below MCR, CI with NI.
pub fn show(rt: &impl Print) -> io::Result<()> {
    coded(rt, 0x4000, 512000, 512000)?;
    coded(rt, 0x7fff, 1536, 1023)?;
    coded(rt, 0x5fff, 512, 1025)?;
    coded(rt, 0x3fff, 2196875771904, 511)?;
    coded(rt, 0x0000, 512, 0)?;
    coded(rt, 0x53e8, 512, 512)?;
    coded(rt, 0x41ff, 512, 2196875771904)?;
    coded(rt, 0x4200, 512, 2196875771905)?;
    moved(rt, 1000, 500000000, 4, 524287, 0x7fff, true, false, 0x7fff)?;
    moved(
        rt, 500000, 500000000, 4, 524287, 0x53e8, false, false, 0x7fff,
    )?;
    moved(
        rt, 512000, 500000000, 4, 524287, 0x7fff, true, false, 0x5120,
    )?;
    moved(
        rt, 512000, 500000001, 4, 524288, 0x7fff, true, false, 0x5120,
    )?;
    moved(
        rt, 512000, 500000001, 7, 524288, 0x7fff, true, false, 0x5120,
    )?;
    moved(rt, 600, 500000001, 4, 524288, 0x7fff, true, false, 0x5120)?;
    moved(rt, 520, 500000001, 4, 8388608, 0x53e8, true, false, 0x7fff)?;
    moved(rt, 400000, 0, 4, 0, 0x53e8, false, false, 0x7fff)?;
    moved(rt, 400000, 0, 4, 0, 0x53e8, false, true, 0x7fff)?;
    moved(rt, 400000, 0, 4, 0, 0x53e8, false, true, 0x5120)?;
    moved(rt, 400000, 0, 4, 0, 0x53e8, false, false, 0x0000)?;
    moved(rt, 1000, 0, 4, 0, 0x53e8, true, true, 0x7fff)
}

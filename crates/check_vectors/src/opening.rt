// The house set, the ranges of an open, and Trm by number (document 01, "Opening").
use crate::print;
use rate_params::params::{Params, trm_time};
use std::io;

// The rates of the three codes and the initial rate used. Then the numbers and CRM, and whether an open
// takes TBE, FRTT and all the others.
fn row(rt: &impl Print, p: Params) -> io::Result<()> {
    print::rates(rt, &[p.peak(), p.least(), p.initial(), p.initial_used()])?;
    print::codes(
        rt,
        &[p.n, p.r, p.d, p.c, p.tbe, p.frtt, p.adtf, p.trm, p.crm()],
    )?;
    let fits = p.fits() as u32;
    let tbe = p.tbe_fits() as u32;
    let frtt = p.frtt_fits() as u32;
    print::codes(rt, &[fits, tbe, frtt])
}

// The numbers of an open, at rates that are in order.
fn numbers(rt: &impl Print, n: u32, r: u32, d: u32, c: u32, adtf: u32, trm: u32) -> io::Result<()> {
    row(
        rt,
        Params {
            pcr: 0x53e8,
            mcr: 0x4000,
            icr: 0x4200,
            n,
            r,
            d,
            c,
            tbe: 16777215,
            frtt: 0,
            adtf,
            trm,
        },
    )
}

// TBE and FRTT, with MCR 1 cell a second, ICR 1,000 and this n.
fn setup(rt: &impl Print, n: u32, tbe: u32, frtt: u32) -> io::Result<()> {
    let mut p = Params::house(0x53e8, 0x4000, 0x53e8);
    p.n = n;
    p.tbe = tbe;
    p.frtt = frtt;
    row(rt, p)
}

// All at their least, all at their most, and then each one step outside.
fn ranges(rt: &impl Print) -> io::Result<()> {
    numbers(rt, 1, 0, 0, 0, 1, 0)?;
    numbers(rt, 8, 15, 15, 7, 1023, 7)?;
    numbers(rt, 0, 4, 4, 4, 50, 7)?;
    numbers(rt, 9, 4, 4, 4, 50, 7)?;
    numbers(rt, 5, 16, 4, 4, 50, 7)?;
    numbers(rt, 5, 4, 16, 4, 50, 7)?;
    numbers(rt, 5, 4, 4, 8, 50, 7)?;
    numbers(rt, 5, 4, 4, 4, 0, 7)?;
    numbers(rt, 5, 4, 4, 4, 1024, 7)?;
    numbers(rt, 5, 4, 4, 4, 50, 8)
}

// Both ends of TBE and FRTT, and one step outside. CRM at 32 and at 33 cells. The initial rate
// rounded down, as given, and at MCR.
fn setups(rt: &impl Print) -> io::Result<()> {
    setup(rt, 1, 16777215, 0)?;
    setup(rt, 8, 1, 16700000)?;
    setup(rt, 5, 0, 1)?;
    setup(rt, 5, 16777216, 1)?;
    setup(rt, 5, 1, 16700001)?;
    setup(rt, 5, 32, 33000)?;
    setup(rt, 5, 33, 33000)?;
    setup(rt, 5, 33, 33001)?;
    setup(rt, 5, 1, 1000000)?;
    setup(rt, 5, 1, 1000001)?;
    setup(rt, 31, 4294967295, 4294967295)?;
    setup(rt, 32, 4294967295, 1)
}

// The house set with rates in order, MCR 0, ICR below MCR, PCR below ICR, and a code of more than 16 bits. Then
// the ranges and the eight times.
pub fn show(rt: &impl Print) -> io::Result<()> {
    row(rt, Params::house(0x53e8, 0x4000, 0x4200))?;
    row(rt, Params::house(0x53e8, 0x0000, 0x4200))?;
    row(rt, Params::house(0x53e8, 0x4200, 0x4000))?;
    row(rt, Params::house(0x4000, 0x4000, 0x4200))?;
    row(rt, Params::house(0x153e8, 0x4000, 0x4200))?;
    ranges(rt)?;
    setups(rt)?;
    print::rates(rt, &[trm_time(0), trm_time(1), trm_time(2), trm_time(3)])?;
    print::rates(rt, &[trm_time(4), trm_time(5), trm_time(6), trm_time(7)])
}

// Whole cells, written and read back (document 01, "The cell, 53 octets"; document 02, L6).
use crate::print;
use cell::fields::Fields;
use cell::read::Cell;
use cell_read::read::read;
use cell_write::write::write;
use laws::refusals::refusal_or_0;
use std::io;

// Octets; then what reading them gives: a refusal, a data cell's VPI, VCI and EFCI, or an RM cell's fields.
pub fn reading(rt: &impl Print, cell: &[u8]) -> io::Result<()> {
    print::octets(rt, cell)?;
    match read(cell) {
        Err(refusal) => print::codes(rt, &[refusal.number()]),
        Ok(Cell::Data { vpi, vci, efci }) => print::codes(rt, &[vpi, vci, efci as u32]),
        Ok(Cell::Rm(f)) => print::codes(
            rt,
            &[
                f.vpi, f.vci, f.dir, f.bn, f.ci, f.ni, f.ra, f.er, f.ccr, f.mcr, f.ql, f.sn,
            ],
        ),
    }
}

// Fields that each differ from their neighbours, except for those given.
pub fn sample(vpi: u32, vci: u32, ci: u32, er: u32) -> Fields {
    Fields {
        vpi,
        vci,
        dir: 0,
        bn: 0,
        ci,
        ni: 0,
        ra: 1,
        er,
        ccr: 0x53e8,
        mcr: 0x4000,
        ql: 0x01234567,
        sn: 0x89abcdef,
    }
}

// The refusals of writing into 52 octets and into 53; then what reading the 53 gives.
fn written(rt: &impl Print, f: Fields) -> io::Result<()> {
    let mut short = [0u8; 52];
    let mut cell = [0u8; 53];
    let first = refusal_or_0(write(&mut short, f));
    let second = refusal_or_0(write(&mut cell, f));
    print::codes(rt, &[first, second])?;
    reading(rt, &cell)
}

// A sample, all at their most, ER, CI, VCI and VPI out of range; buffers of 52 and 54 octets.
pub fn show(rt: &impl Print) -> io::Result<()> {
    written(rt, sample(0xa5, 0x1234, 0, 0x7fff))?;
    written(
        rt,
        Fields {
            vpi: 255,
            vci: 65535,
            dir: 1,
            bn: 1,
            ci: 1,
            ni: 1,
            ra: 1,
            er: 0x7fff,
            ccr: 0x7fff,
            mcr: 0x7fff,
            ql: 0xffffffff,
            sn: 0xffffffff,
        },
    )?;
    written(rt, sample(0xa5, 0x1234, 0, 0x8000))?;
    written(rt, sample(0xa5, 0x1234, 2, 0x7fff))?;
    written(rt, sample(0xa5, 65536, 0, 0x7fff))?;
    written(rt, sample(256, 0x1234, 0, 0x7fff))?;
    let short = [0u8; 52];
    reading(rt, &short)?;
    let long = [0u8; 54];
    reading(rt, &long)
}

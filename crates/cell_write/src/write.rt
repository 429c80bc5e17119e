// Writing an RM cell (document 01, "The cell, 53 octets").
ghost use Rattle.std.specs.Prelude.{◌≡◌, true, [], ◌∷◌, ◌++◌, ◌+◌, ◌*◌, ◌≤◌, ◌<◌, length};
ghost use Rattle.cell_payload.specs.Payload.{payload_of};
ghost use Rattle.cell.specs.Fields.{fields_fit, body, rm_cell};
ghost use Rattle.cell.specs.Writing.{writing, buffer_written};

use crate::put::{put_header, put_payload};
use crate::with_crc::with_crc;
use cell::fields::Fields;
use cell::octets::CELL_OCTETS;
use cell_payload::payload::Payload;
use laws::refusals::Refusal;

// Octet 7: the five bits from the top.
fn marks(dir: u32, bn: u32, ci: u32, ni: u32, ra: u32) -> u64
    requires { (dir ≤ 1) × ((bn ≤ 1) × ((ci ≤ 1) × ((ni ≤ 1) × (ra ≤ 1)))) }
    ensures { (result ≡ dir * 128 + bn * 64 + ci * 32 + ni * 16 + ra * 8) × (result < 256) }
{
    (dir * 128 + bn * 64 + ci * 32 + ni * 16 + ra * 8) as u64
}

// Octets 6 to 13: protocol 1, octet 7 and the three rates.
fn first_word(marks: u64, er: u32, ccr: u32, mcr: u32) -> u64
    requires { (marks < 256) × ((er ≤ 32767) × ((ccr ≤ 32767) × (mcr ≤ 32767))) }
    ensures { result ≡ 0x100000000000000 + marks * 0x1000000000000 + er * 0x100000000 + ccr * 0x10000 + mcr }
{
    0x100000000000000
        + marks * 0x1000000000000
        + er as u64 * 0x100000000
        + ccr as u64 * 0x10000
        + mcr as u64
}

// Octets 14 to 21: QL and SN.
fn second_word(ql: u32, sn: u32) -> u64
    ensures { result ≡ ql * 0x100000000 + sn }
{
    ql as u64 * 0x100000000 + sn as u64
}

// The payload's words, with the CRC-10 still 0: behind the fields the reserved octets, 0x6A.
fn without_crc(f: Fields) -> Payload
    requires { fields_fit f ≡ true }
    ensures { result ≡ payload_of (body f ++ (0 ∷ 0 ∷ [])) }
{
    let m = marks(f.dir, f.bn, f.ci, f.ni, f.ra);
    Payload {
        a: first_word(m, f.er, f.ccr, f.mcr),
        b: second_word(f.ql, f.sn),
        c: 0x6a6a6a6a6a6a6a6a,
        d: 0x6a6a6a6a6a6a6a6a,
        e: 0x6a6a6a6a6a6a6a6a,
        f: 0x6a6a6a6a6a6a0000,
    }
}

// An RM cell with these fields.
pub fn put_rm(cell: &mut [u8; CELL_OCTETS], clp: u32, f: Fields)
    requires { (clp ≤ 1) × (fields_fit f ≡ true) }
    ensures { cell.new ≡ rm_cell clp f }
{
    put_header(cell, clp, f.vpi, f.vci);
    put_payload(cell, with_crc(without_crc(f)));
}

// Writes an RM cell into any buffer, if it is one cell long and the fields fit.
#[tactic(auto, unfolding(cell::specs::Writing::writing, cell::specs::Writing::buffer_written))]
pub fn write(cell: &mut [u8], f: Fields) -> Result<(), Refusal>
    ensures { (result ≡ writing (length cell.old) f) × (cell.new ≡ buffer_written result (rm_cell 0 f) cell.old) }
{
    let Some(cell) = cell.as_mut_array() else {
        return Err(Refusal::Length);
    };
    if !f.fits() {
        return Err(Refusal::Range);
    }
    put_rm(cell, 0, f);
    Ok(())
}

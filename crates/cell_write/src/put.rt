// Stores into a cell of 53 octets: a header, and a payload eight octets at a time.
ghost use Rattle.std.specs.Prelude.{◌≡◌, ◌++◌, ◌≤◌, take, drop};
ghost use Rattle.std.proofs.lemmas.List.Edits.{sets};
ghost use Rattle.cell_payload.specs.Payload.{word_octets, octets_of};
ghost use Rattle.cell.specs.Header.{header};

use cell::octets::CELL_OCTETS;
use cell_crc::header::header_check;
use cell_payload::payload::Payload;

// The eight octets of w, from index at on.
fn put_word(cell: &mut [u8; CELL_OCTETS], at: usize, w: u64)
    requires { at ≤ 45 }
    ensures { cell.new ≡ sets cell.old at (word_octets w) }
{
    cell[at..at + 8].copy_from_slice(&w.to_be_bytes());
}

// Octets 6 to 53.
pub fn put_payload(cell: &mut [u8; CELL_OCTETS], p: Payload)
    ensures { cell.new ≡ take 5 cell.old ++ octets_of p }
{
    put_word(cell, 5, p.a);
    put_word(cell, 13, p.b);
    put_word(cell, 21, p.c);
    put_word(cell, 29, p.d);
    put_word(cell, 37, p.e);
    put_word(cell, 45, p.f);
}

// Octets 1 to 5, of an RM cell.
pub fn put_header(cell: &mut [u8; CELL_OCTETS], clp: u32, vpi: u32, vci: u32)
    requires { clp ≤ 1 }
    ensures { cell.new ≡ header clp vpi vci ++ drop 5 cell.old }
{
    let a = (vpi / 16 % 16) as u8;
    let b = (vpi % 16 * 16 + vci / 4096 % 16) as u8;
    let c = (vci / 16 % 256) as u8;
    let d = (vci % 16 * 16 + 12 + clp) as u8;
    let check = header_check(a, b, c, d);
    cell[0] = a;
    cell[1] = b;
    cell[2] = c;
    cell[3] = d;
    cell[4] = check;
}

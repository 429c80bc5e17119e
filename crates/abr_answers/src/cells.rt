// What writing and reading a cell return (document 01, "The cell, 53 octets"; document 02, L6).
ghost use Rattle.std.specs.Prelude.{◌≡◌};
ghost use Rattle.cell.specs.Read.{read_as};
ghost use Rattle.abr_answers.specs.Cells.{address_alone, cell_of};

use cell::fields::Fields;
use cell::read::Cell;
use laws::refusals::Refusal;

// A struct of the C interface, which tells refusal, kind and EFCI by numbers. Kind 1 is a data cell, of whose fields
// only the VPI and the VCI count; 2 is an RM cell.
#[repr(C)]
#[derive(Clone, Copy)]
pub struct AbrCell {
    pub refusal: u32,
    pub kind: u32,
    pub efci: u32,
    pub rm: Fields,
}

// The fields of no RM cell, with this VPI and VCI.
fn address_alone(vpi: u32, vci: u32) -> Fields
    ensures { result ≡ address_alone vpi vci }
{
    Fields {
        vpi,
        vci,
        dir: 0,
        bn: 0,
        ci: 0,
        ni: 0,
        ra: 0,
        er: 0,
        ccr: 0,
        mcr: 0,
        ql: 0,
        sn: 0,
    }
}

impl From<Result<Cell, Refusal>> for AbrCell {
    ghost from_gives = { λ a r. r ≡ cell_of (read_as a) };

    fn from(a: Result<Cell, Refusal>) -> AbrCell {
        match a {
            Err(refusal) => AbrCell {
                refusal: refusal.number(),
                kind: 0,
                efci: 0,
                rm: address_alone(0, 0),
            },
            Ok(Cell::Data { vpi, vci, efci }) => AbrCell {
                refusal: 0,
                kind: 1,
                efci: efci as u32,
                rm: address_alone(vpi, vci),
            },
            Ok(Cell::Rm(f)) => AbrCell {
                refusal: 0,
                kind: 2,
                efci: 0,
                rm: f,
            },
        }
    }
}

// The fields of an RM cell (document 01, "The cell, 53 octets"; document 02, L6).
ghost use Rattle.std.specs.Prelude.{◌≡◌};
ghost use Rattle.cell.specs.Fields.{fields_fit};

use crate::name::{VCI_MOST, VPI_MOST};
use rate::code::CODE_MOST;

// A struct of the C interface: the fields of one bit are numbers there.
#[repr(C)]
#[derive(Clone, Copy)]
pub struct Fields {
    pub vpi: u32,
    pub vci: u32,
    pub dir: u32,
    pub bn: u32,
    pub ci: u32,
    pub ni: u32,
    pub ra: u32,
    pub er: u32,
    pub ccr: u32,
    pub mcr: u32,
    pub ql: u32,
    pub sn: u32,
}

impl Fields {
    // Whether a cell can carry them. Every range of the definition is tested, also that of QL
    // and SN, which their type ensures.
    pub fn fits(self) -> bool
        ensures { result ≡ fields_fit self }
    {
        (self.vpi <= VPI_MOST)
            & (self.vci <= VCI_MOST)
            & (self.dir <= 1)
            & (self.bn <= 1)
            & (self.ci <= 1)
            & (self.ni <= 1)
            & (self.ra <= 1)
            & (self.er <= CODE_MOST)
            & (self.ccr <= CODE_MOST)
            & (self.mcr <= CODE_MOST)
            & (self.ql <= 4294967295)
            & (self.sn <= 4294967295)
    }
}

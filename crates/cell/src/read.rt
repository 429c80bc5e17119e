// What is read in a cell (document 01, "The cell, 53 octets"; document 02, L6).
use crate::fields::Fields;

// A data cell's VPI, VCI and EFCI, or an RM cell's fields.
#[derive(Clone, Copy)]
pub enum Cell {
    Data { vpi: u32, vci: u32, efci: bool },
    Rm(Fields),
}

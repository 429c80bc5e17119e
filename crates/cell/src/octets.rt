// How many octets a cell has (document 01, "The cell, 53 octets").
pub const CELL_OCTETS: usize = 53;

// The two checks of a cell: that of its header, and the CRC-10 of its payload.
#![tactic(auto)]

pub mod crc10;
pub mod header;

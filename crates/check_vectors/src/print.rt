// Rows of numbers on standard output, a line each.
use std::io;

// Rates and times, in decimal.
pub fn rates(rt: &impl Print, row: &[u64]) -> io::Result<()> {
    for number in row {
        print!(rt; "{number} ")?;
    }
    println!(rt; "")
}

// Codes and other numbers of up to 32 bits, in hexadecimal.
pub fn codes(rt: &impl Print, row: &[u32]) -> io::Result<()> {
    for number in row {
        print!(rt; "{number:02x} ")?;
    }
    println!(rt; "")
}

// Octets, in hexadecimal.
pub fn octets(rt: &impl Print, row: &[u8]) -> io::Result<()> {
    for octet in row {
        print!(rt; "{octet:02x} ")?;
    }
    println!(rt; "")
}

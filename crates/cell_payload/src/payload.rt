// A payload of 48 octets in six words, so that it moves, and is checked, eight octets at a time.
ghost use Rattle.std.specs.Prelude.{◌≡◌, ◌≤◌, drop};
ghost use Rattle.cell_payload.specs.Payload.{word_at, payload_of};

// Six fields and no array: the definitions payload_of and octets_of, and those of the CRC-10, name each word.
#[derive(Clone, Copy)]
pub struct Payload {
    pub a: u64,
    pub b: u64,
    pub c: u64,
    pub d: u64,
    pub e: u64,
    pub f: u64,
}

// The eight octets from index i on as one word, the first highest. The crate `cell`, above, has a name for the 53.
fn word_at(cell: &[u8; 53], i: usize) -> u64
    requires { i ≤ 45 }
    ensures { result ≡ word_at cell.now i }
{
    u64::from_be_bytes([
        cell[i],
        cell[i + 1],
        cell[i + 2],
        cell[i + 3],
        cell[i + 4],
        cell[i + 5],
        cell[i + 6],
        cell[i + 7],
    ])
}

// The payload of a cell.
pub fn payload_at(cell: &[u8; 53]) -> Payload
    ensures { result ≡ payload_of (drop 5 cell.now) }
{
    Payload {
        a: word_at(cell, 5),
        b: word_at(cell, 13),
        c: word_at(cell, 21),
        d: word_at(cell, 29),
        e: word_at(cell, 37),
        f: word_at(cell, 45),
    }
}

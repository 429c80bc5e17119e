// The bits of the entries in use, 64 in a word: the lowest free entry, and an entry that is taken or freed.
ghost use Rattle.std.specs.Prelude.{◌≡◌, ◌-◌, ◌<◌};
ghost use Rattle.std.specs.Int.Count.{count_trailing_zeros};
ghost use Rattle.table_names.specs.Finding.{FindsFree};
ghost use Rattle.table.specs.Storing.{entry_flipped};
ghost use Rattle.model.specs.State.{capacity};

use table::layout::{CAPACITY, GROUPS, USED, WORDS};

// The lowest of some entries of one word, where each entry is a bit.
fn lowest(entries: u64) -> usize
    requires { 0 < entries }
    ensures { (result ≡ count_trailing_zeros 64 entries) × (result < 64) }
{
    u64::trailing_zeros(entries) as usize
}

// The entries of one word that are not among these.
fn others(entries: u64) -> u64
    ensures { result ≡ 18446744073709551615 - entries }
{
    !entries
}

// The lowest entry that is not taken. A bit of the last word may be of no entry; such a bit is 0.
pub fn find_free(t: &[u64; WORDS]) -> Option<usize>
    ensures { FindsFree t.now result }
{
    for g in 0..GROUPS {
        let vacant = others(t[USED + g]);
        if 0 < vacant {
            let i = g * 64 + lowest(vacant);
            if i < CAPACITY {
                return Some(i);
            }
            return None;
        }
    }
    None
}

// Entry i enters the bits, or leaves them.
pub fn flip_entry(t: &mut [u64; WORDS], i: usize)
    requires { i < capacity }
    ensures { t.new ≡ entry_flipped t.old i }
{
    let p = USED + i / 64;
    t[p] = t[p] ^ (1u64 << (i % 64));
}

// A name's entry, by the directory.
ghost use Rattle.table_names.specs.Finding.{FindsName};

use crate::directory::place;
use table::layout::{CAPACITY, DIRECTORY, WORDS};

// The first word below those of higher names is the name's, if it has one. A word less the first that the name can have
// is below the capacity exactly if the word is the name's: smaller than a division, and so small that it stands in each
// caller.
pub fn find(t: &[u64; WORDS], name: u32) -> Option<usize>
    ensures { FindsName t.now name result }
{
    let base = (name as u64 + 1) * CAPACITY as u64;
    let p = place(t, base + CAPACITY as u64);
    let i = std::num::wrapping_sub_u64(t[DIRECTORY + p], base) as usize;
    if CAPACITY <= i {
        return None;
    }
    Some(i)
}

// The directory of names: a column of descending words, one for each entry in use, with its name and its number. Every
// 64th word and every 8th stand before it once more, so that a search reads four lines of memory at most.
ghost use Rattle.std.specs.Prelude.{◌≡◌, ◌+◌, ◌*◌, ◌<◌};
ghost use Rattle.model.specs.State.{capacity};
ghost use Rattle.table_names.specs.Filing.{FindsPlace};

use table::layout::{CAPACITY, DIRECTORY, FINER, GROUPS, SAMPLES, WORDS};
use table_column::column::{at_least, at_least_from};

// The word of a name in an entry.
pub fn directory_word(name: u32, i: usize) -> u64
    requires { i < capacity }
    ensures { result ≡ (name + 1) * capacity + i }
{
    (name as u64 + 1) * CAPACITY as u64 + i as u64
}

// Where a word belongs: behind those that are at least this one, or at the last place.
pub fn place(t: &[u64; WORDS], word: u64) -> usize
    ensures { FindsPlace t.now word result }
{
    let group = at_least(t, SAMPLES, GROUPS, word);
    let block = at_least_from(t, FINER, 8 * group, 8, word);
    at_least_from(t, DIRECTORY, 8 * block, 8, word)
}

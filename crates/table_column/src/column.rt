// A column of descending words in a table, which starts at word `from` and has `len` words.
ghost use Rattle.std.specs.Prelude.{◌≡◌, cond, ◌&&◌, ◌+◌, ◌-◌, ◌≤◌, ◌<◌, leb, ltb};
ghost use Rattle.table.specs.Layout.{size};
ghost use Rattle.table_column.specs.Column.{Column, AtLeast, CountsAtLeast, CountsUpTo, Enters, Leaves, Inserts, RemovesWord, RemovesRun};

use table::layout::WORDS;

// Where a halving goes on: behind the word that it looked at, or before it. This is a number, so
// that no branch depends on it.
fn passed(word: u64, e: u64, behind: usize, p: usize) -> usize
    ensures { result ≡ cond (leb word e) behind p }
{
    if word <= e { behind } else { p }
}

// The word behind those that are at least this one, among the `len` words from word `start` on; the last of them is
// not looked at.
pub fn at_least_from(t: &[u64; WORDS], from: usize, start: usize, len: usize, word: u64) -> usize
    requires { Column (from + start) len }
    ensures { (start ≤ result) × AtLeast (from + start) len t.now word (result - start) }
{
    // not `partition_point`, which looks at other words of the column and branches on each
    let mut p = start;
    let mut half = len / 2;
    while 0 < half {
        let behind = p + half;
        p = passed(word, t[from + (behind - 1)], behind, p);
        half = half / 2;
    }
    p
}

// How many of the words are at least this one, the last word left out.
pub fn at_least(t: &[u64; WORDS], from: usize, len: usize, word: u64) -> usize
    requires { Column from len }
    ensures { AtLeast from len t.now word result }
{
    at_least_from(t, from, 0, len, word)
}

// How many of the words are at least this one.
pub fn count(t: &[u64; WORDS], from: usize, len: usize, word: u64) -> usize
    requires { Column from len }
    ensures { CountsAtLeast from len t.now word result }
{
    let p = at_least(t, from, len, word);
    passed(word, t[from + p], p + 1, p)
}

// How many of the words are at least this one, where at most p are: if that is p or p - 1, it is found without halving.
pub fn count_up_to(t: &[u64; WORDS], from: usize, len: usize, p: usize, word: u64) -> usize
    requires { Column from len × (p ≤ len) }
    ensures { CountsUpTo from len p t.now word result }
{
    if p == 0 {
        return 0;
    }
    if word <= t[from + (p - 1)] {
        return p;
    }
    if p == 1 {
        return 0;
    }
    if word <= t[from + (p - 2)] {
        return p - 1;
    }
    count(t, from, len, word)
}

// A word enters at place p, the words from there on move up by one, and the last one comes out.
pub fn enter(t: &mut [u64; WORDS], from: usize, p: usize, len: usize, word: u64) -> u64
    requires { (p ≤ len) × (from + len ≤ size) }
    ensures { Enters from p len word t.old t.new result }
{
    let mut moved = word;
    for i in p..len {
        let next = t[from + i];
        t[from + i] = moved;
        if next == 0 {
            return 0;
        }
        moved = next;
    }
    moved
}

// A word enters before those that are below it.
pub fn insert(t: &mut [u64; WORDS], from: usize, len: usize, word: u64)
    requires { Column from len }
    ensures { Inserts from len word t.old t.new }
{
    let p = at_least(t, from, len, word);
    enter(t, from, p, len, word);
}

// The word at place p leaves, and those behind it move down by one.
pub fn leave(t: &mut [u64; WORDS], from: usize, p: usize, len: usize)
    requires { (p < len) × (from + len ≤ size) }
    ensures { Leaves from p len t.old t.new }
{
    for i in p..len - 1 {
        let next = t[from + (i + 1)];
        t[from + i] = next;
        if next == 0 {
            return;
        }
    }
    t[from + (len - 1)] = 0;
}

// The first word that is below this one leaves.
pub fn remove(t: &mut [u64; WORDS], from: usize, len: usize, word: u64)
    requires { Column from len }
    ensures { RemovesWord from len word t.old t.new }
{
    let p = at_least(t, from, len, word);
    leave(t, from, p, len);
}

// How many words stay of one, 0 or 1, and what stays of it, if those that are at least `low` and below `high` leave.
fn stays(word: u64, high: u64, low: u64) -> usize
    ensures { (result ≡ cond (leb low word && ltb word high) 0 1) × (result ≤ 1) }
{
    if word < low {
        return 1;
    }
    if word < high { 0 } else { 1 }
}

fn left(word: u64, high: u64, low: u64) -> u64
    ensures { result ≡ cond (leb low word && ltb word high) 0 word }
{
    if word < low {
        return word;
    }
    if word < high { 0 } else { word }
}

// The words that are at least `low` and below `high` leave, and those behind them move down. This is one pass from
// the first of them on, without a branch that depends on which leave.
pub fn remove_run(t: &mut [u64; WORDS], from: usize, len: usize, high: u64, low: u64)
    requires { Column from len }
    ensures { RemovesRun from len high low t.old t.new }
{
    let mut p = at_least(t, from, len, high);
    for i in p..len {
        let word = t[from + i];
        if word == 0 {
            return;
        }
        t[from + i] = 0;
        t[from + p] = left(word, high, low);
        p = p + stays(word, high, low);
    }
}

// A word enters the directory or leaves it, with its samples. The words behind it move by one place, eight at a time.
ghost use Rattle.std.specs.Prelude.{◌≡◌, ◌+◌, ◌*◌, ◌<◌, ◌≤◌, set, slice_index};
ghost use Rattle.std.specs.List.{copy_within};
ghost use Rattle.model.specs.State.{capacity};
ghost use Rattle.table.specs.Layout.{groups, size};
ghost use Rattle.table_names.specs.Filing.{last_put, ShiftsUp, ShiftsDown, Files, Unfiles};

use crate::directory::{directory_word, place};
use table::layout::{CAPACITY, DIRECTORY, FINER, SAMPLES, WORDS};
use table_column::column::{enter, leave};

// The directory has blocks of eight words.
const BLOCKS: usize = CAPACITY / 8;

// The last word of block b, and the samples that repeat it.
fn put_last(t: &mut [u64; WORDS], b: usize, word: u64)
    requires { b * 8 + 8 < capacity }
    ensures { t.new ≡ last_put t.old b word }
{
    t[DIRECTORY + (b * 8 + 7)] = word;
    t[FINER + b] = word;
    if b % 8 == 7 {
        t[SAMPLES + b / 8] = word;
    }
}

// A word enters before six others, which move up by one, and the one behind them comes out.
fn move_up(t: &mut [u64; WORDS], at: usize, word: u64) -> u64
    requires { at + 7 ≤ size }
    ensures { (t.new ≡ set (copy_within t.old at (at + 6) (at + 1)) at word) × (result ≡ slice_index t.old (at + 6)) }
{
    let out = t[at + 6];
    t.copy_within(at..at + 6, at + 1);
    t[at] = word;
    out
}

// The seven words behind this one move down by one.
fn move_down(t: &mut [u64; WORDS], at: usize)
    requires { at + 8 ≤ size }
    ensures { t.new ≡ copy_within t.old (at + 1) (at + 8) at }
{
    t.copy_within(at + 1..at + 8, at);
}

// A word enters before the last word of block b, and the words from there on move up by one.
fn shift_up(t: &mut [u64; WORDS], b: usize, word: u64)
    requires { b < groups * 8 }
    ensures { ShiftsUp b word t.old t.new }
{
    let mut moved = word;
    for i in b..BLOCKS - 1 {
        let last = t[DIRECTORY + (i * 8 + 7)];
        put_last(t, i, moved);
        if last == 0 {
            return;
        }
        moved = move_up(t, DIRECTORY + (i * 8 + 8), last);
    }
    t[DIRECTORY + (CAPACITY - 1)] = moved;
}

// The words behind the last word of block b move down by one, over that word.
fn shift_down(t: &mut [u64; WORDS], b: usize)
    requires { b < groups * 8 }
    ensures { ShiftsDown b t.old t.new }
{
    for i in b..BLOCKS - 1 {
        let next = t[DIRECTORY + (i * 8 + 8)];
        put_last(t, i, next);
        if next == 0 {
            return;
        }
        move_down(t, DIRECTORY + (i * 8 + 8));
    }
    t[DIRECTORY + (CAPACITY - 1)] = 0;
}

// A name enters the directory with its entry.
pub fn file(t: &mut [u64; WORDS], name: u32, i: usize)
    requires { i < capacity }
    ensures { Files ((name + 1) * capacity + i) t.old t.new }
{
    let word = directory_word(name, i);
    let p = place(t, word);
    let b = p / 8;
    let out = enter(t, DIRECTORY, p, b * 8 + 7, word);
    shift_up(t, b, out);
}

// A name leaves the directory with its entry.
pub fn unfile(t: &mut [u64; WORDS], name: u32, i: usize)
    requires { i < capacity }
    ensures { Unfiles ((name + 1) * capacity + i + 1) t.old t.new }
{
    let p = place(t, directory_word(name, i) + 1);
    let b = p / 8;
    leave(t, DIRECTORY, p, b * 8 + 8);
    shift_down(t, b);
}

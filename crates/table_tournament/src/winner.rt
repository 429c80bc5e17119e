// The winner at a place of the tournament, with its ready key, and the winner of a match.
ghost use Rattle.std.specs.Prelude.{◌≡◌, leb, get_or, ◌*◌, ◌≤◌, ◌<◌};
ghost use Rattle.table_tournament.specs.KeyedWinner.{word_mark, keyed_node, leaf_word, keyed_leaf, word_leaf, matched};
ghost use Rattle.model.specs.Tournament.{neighbour};
ghost use Rattle.model.specs.State.{capacity};
ghost use Rattle.table.specs.Layout.{record_from};

use table::layout::{CAPACITY, HALF, IDENTITY, NAME_LIMIT, NODES, RECORD_WIDTH, RECORDS, WORDS};

// The winner's number, which is its name above its leaf, and its ready key; both are 0 for none, as the table stores it
// and `keyed_winner` defines it.
#[derive(Clone, Copy)]
pub struct KeyedWinner {
    pub word: u64,
    pub key: u64,
}

// The winner of a place's match. Its key stands beside its word, so that the winner's record is not read.
pub fn keyed_node(t: &[u64; WORDS], place: usize) -> KeyedWinner
    requires { place < capacity }
    ensures { result ≡ keyed_node t.now place }
{
    let b = NODES + 2 * place;
    KeyedWinner {
        word: t[b],
        key: t[b + 1],
    }
}

// The lowest bit of a word is 0 in the table. Added to the word of a winner, the mark tells it from every other, and
// its order among them stays the same.
pub const MARK: u64 = 1;

// The word of a leaf's connection: of two connections the lower name has the lower word.
fn leaf_word(t: &[u64; WORDS], leaf: usize) -> u64
    requires { leaf < capacity }
    ensures { result ≡ leaf_word t.now leaf }
{
    let name = t[RECORDS + leaf * RECORD_WIDTH + IDENTITY] % NAME_LIMIT;
    name * HALF + 2 * (leaf as u64 + 1)
}

// A leaf that is empty or never ready has the key 0, and wins no match. To the word of any other a mark is added.
pub fn keyed_leaf(t: &[u64; WORDS], leaf: usize, mark: u64) -> KeyedWinner
    requires { (leaf < capacity) × (mark ≤ word_mark) }
    ensures { result ≡ keyed_leaf t.now leaf mark }
{
    let key = t[RECORDS + leaf * RECORD_WIDTH];
    if key == 0 {
        return KeyedWinner { word: 0, key: 0 };
    }
    KeyedWinner {
        word: leaf_word(t, leaf) + mark,
        key,
    }
}

// The leaf of a winner's word. A number that no winner has gives some leaf too, without a branch.
pub fn word_leaf(word: u64) -> usize
    ensures { (result ≡ word_leaf word) × (result < capacity) }
{
    let w = (word / 2 % CAPACITY as u64) as usize;
    (w + (CAPACITY - 1)) % CAPACITY
}

// The winner of a match: a greater key is an earlier instant, and of two with the same key the lower name wins, without
// a load of their records. Two keys nearly always differ, and then the compiler makes no branch of it. An order of
// pairs would be no plainer: it would have to cross the two fields, `(a.key, b.word) < (b.key, a.word)`.
pub fn winner_of(a: KeyedWinner, b: KeyedWinner) -> KeyedWinner
    ensures { result ≡ matched a b }
{
    if a.key == b.key {
        if b.word < a.word {
            return b;
        }
        return a;
    }
    if a.key < b.key {
        return b;
    }
    a
}

// The other place of a place's match.
pub fn neighbour(place: usize) -> usize
    requires { place < 2 * capacity }
    ensures { result ≡ neighbour place }
{
    place / 2 * 2 + (1 - place % 2)
}

// Whether a leaf's ready key is at least its neighbour's, as that of the winner of their match is.
pub fn leads_neighbour(t: &[u64; WORDS], leaf: usize) -> bool
    requires { leaf < capacity }
    ensures { result ≡ leb (get_or t.now (record_from (neighbour leaf)) 0) (get_or t.now (record_from leaf) 0) }
{
    let beside = neighbour(leaf);
    t[RECORDS + beside * RECORD_WIDTH] <= t[RECORDS + leaf * RECORD_WIDTH]
}

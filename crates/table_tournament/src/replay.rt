// The matches of a leaf: replayed upwards when it has changed, and those that it wins.
ghost use Rattle.std.specs.Prelude.{◌≡◌, ◌+◌, ◌-◌, ◌/◌, ◌<◌};
ghost use Rattle.table_tournament.specs.Replaying.{Replays, ReplaysAll, CountsWon, levels_with};
ghost use Rattle.model.specs.State.{capacity};

use crate::winner::{MARK, keyed_leaf, keyed_node, neighbour, winner_of};
use table::layout::{CAPACITY, HALF, LEVELS, NODES, WORDS};

// Replays the matches of a leaf whose key or name has changed, and returns how many (document 02, L4). It ends at
// the first level whose winner is as before and is not that leaf. Above it nothing changes. The leaf's own word has a
// mark that no word of the table has, so that one test tells the end. The next opponent is read before the match, on
// which it does not depend.
pub fn replay(t: &mut [u64; WORDS], leaf: usize) -> u32
    requires { leaf < capacity }
    ensures { Replays t.old t.new leaf result }
{
    let mut best = keyed_leaf(t, leaf, MARK);
    let beside = neighbour(leaf);
    let mut other = keyed_leaf(t, beside, 0);
    let mut place = (CAPACITY + leaf) / 2;
    for n in 0..LEVELS {
        let beside = neighbour(place);
        let next = keyed_node(t, beside);
        best = winner_of(best, other);
        let b = NODES + 2 * place;
        if t[b] == best.word {
            return n + 1;
        }
        // without its mark
        t[b] = best.word / 2 * 2;
        t[b + 1] = best.key;
        other = next;
        place = place / 2;
    }
    LEVELS
}

// Replays every match of a leaf. Where it was the winner of the tournament no level ends a replay, since the winner of
// each was this leaf: so none is tested for the end, no word needs a mark, and the count is `levels` (document 02, L4).
pub fn replay_all(t: &mut [u64; WORDS], leaf: usize)
    requires { leaf < capacity }
    ensures { ReplaysAll t.old t.new leaf }
{
    let mut best = keyed_leaf(t, leaf, 0);
    let beside = neighbour(leaf);
    let mut other = keyed_leaf(t, beside, 0);
    let mut place = (CAPACITY + leaf) / 2;
    for _ in 0..LEVELS {
        let beside = neighbour(place);
        let next = keyed_node(t, beside);
        best = winner_of(best, other);
        let b = NODES + 2 * place;
        t[b] = best.word;
        t[b + 1] = best.key;
        other = next;
        place = place / 2;
    }
}

// One more than the places above a leaf, from the lowest on, that this leaf has won; `most - 1` of them are looked at.
// The lower half of a winner's word tells its leaf.
pub fn levels_with(t: &[u64; WORDS], leaf: usize, most: u32) -> u32
    requires { leaf < capacity }
    ensures { result ≡ levels_with t.now leaf ((capacity + leaf) / 2) (most - 1) }
{
    let own = 2 * (leaf as u32 + 1);
    let mut place = (CAPACITY + leaf) / 2;
    for n in 1..most {
        if (t[NODES + 2 * place] % HALF) as u32 != own {
            return n;
        }
        place = place / 2;
    }
    most.max(1)
}

// What a replay counts of a leaf whose key and name are as before: the matches that it wins, and the first that it does
// not. Nothing is stored. The last level counts whoever wins there and is not looked at.
pub fn levels_won(t: &[u64; WORDS], leaf: usize) -> u32
    requires { leaf < capacity }
    ensures { CountsWon t.now leaf result }
{
    levels_with(t, leaf, LEVELS)
}

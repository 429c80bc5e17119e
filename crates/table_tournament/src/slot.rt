// The connection that a slot goes to: the winner of the tournament, if it is ready by then.
ghost use Rattle.std.specs.Prelude.{◌≤◌};
ghost use Rattle.rate.specs.Units.{latest_time};
ghost use Rattle.table_tournament.specs.SlotWinner.{SlotWinnerInRange, FindsSlotWinner};

use crate::replay::levels_with;
use crate::winner::{keyed_node, word_leaf};
use table::layout::{LEVELS, WORDS};

// What `levels_with` counts of a winner below the two highest levels, whose places share the root's line if the table
// is aligned.
const WON_BELOW: u32 = LEVELS - 1;

// A key is above the limit if its instant is not after the time. The key 0, of no winner, is not. The winner has won
// all its matches. This is looked at for the sake of the caches: the lines of its places, which the replay needs, are
// then loaded together with the winner's record and not after it.
pub fn slot_winner(t: &[u64; WORDS], time: u64) -> Option<usize>
    requires { time ≤ latest_time }
    ensures inside { SlotWinnerInRange result }
    ensures picks { FindsSlotWinner t.now time result }
{
    let first = keyed_node(t, 1);
    if first.key <= 18446744073709551614 - time {
        return None;
    }
    let leaf = word_leaf(first.word);
    if levels_with(t, leaf, WON_BELOW) < WON_BELOW {
        return None;
    }
    Some(leaf)
}

// The earliest ready instant of all connections, that of the winner of the tournament. A
// transmitter can sleep until then.
ghost use Rattle.table_tournament.specs.Next.{GivesNext};

use crate::winner::keyed_node;
use table::layout::WORDS;

// A key is 2^64 - 1 less its instant, and 0 where there is no winner: so never is 2^64 - 1 without a branch.
pub fn next_ready(t: &[u64; WORDS]) -> u64
    ensures { GivesNext t.now result }
{
    let first = keyed_node(t, 1);
    u64::MAX - first.key
}

// The words of the source of a connection, in the record that begins at index b.
ghost use Rattle.std.specs.Prelude.{◌≡◌, cond, ◌+◌, ◌≤◌, ◌<◌};
ghost use Rattle.laws.specs.Blocks.{put_from};
ghost use Rattle.table.specs.Layout.{halves, pace_sent, pace_forward, pace_word, queue_word, paced_words, source_words, size};

use connection::parts::{Connection, Pace, Queue};
use table::layout::{HALF, WORDS};

// Two numbers in one word.
pub fn halves(high: u32, low: u32) -> u64
    ensures { result ≡ halves high low }
{
    high as u64 * HALF + low as u64
}

#[derive(Clone, Copy)]
struct PaceWords {
    sent: u64,
    forward: u64,
    count: u64,
}

fn running_tag(turned: bool) -> u32
    ensures { result ≡ cond turned 2 1 }
{
    if turned { 2 } else { 1 }
}

fn pace_words(p: Pace) -> PaceWords
    ensures { (result.sent ≡ pace_sent p) × (result.forward ≡ pace_forward p) × (result.count ≡ pace_word p) }
{
    match p {
        Pace::Unsent => PaceWords {
            sent: 0,
            forward: 0,
            count: 0,
        },
        Pace::Running {
            sent,
            forward,
            k,
            turned,
        } => PaceWords {
            sent,
            forward,
            count: halves(running_tag(turned), k),
        },
    }
}

// The data that waits, and the VCI served last.
pub fn queue_word(q: Queue) -> u64
    ensures { result ≡ queue_word q }
{
    halves(q.served, q.cells)
}

// The queue and the pace.
pub fn put_paced(t: &mut [u64; WORDS], b: usize, c: Connection)
    requires { b + 24 ≤ size }
    ensures { t.new ≡ put_from t.old b 4 (paced_words c) }
{
    let pace = c.pace;
    let p = pace_words(pace);
    let queue = c.queue;
    let waiting = queue_word(queue);
    t[b + 4] = waiting;
    t[b + 5] = p.sent;
    t[b + 6] = p.forward;
    t[b + 7] = p.count;
}

// All that moves at the source.
pub fn put_source(t: &mut [u64; WORDS], b: usize, c: Connection)
    requires { b + 24 ≤ size }
    ensures { t.new ≡ put_from t.old b 3 (source_words c) }
{
    let unanswered = c.unanswered as u64;
    t[b + 3] = c.rate.acr;
    put_paced(t, b, c);
    t[b + 8] = unanswered;
    t[b + 9] = c.change.before;
    t[b + 10] = c.change.after;
}

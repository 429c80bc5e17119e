// A connection stored in an entry of a table, and the matches of its leaf replayed.
ghost use Rattle.std.specs.Prelude.{◌≡◌, ◌<◌, set};
ghost use Rattle.connection.specs.Range.{InRange, InstantInRange};
ghost use Rattle.table.specs.Storing.{FixedFits, destination_put, efci_updated, out_of_rate_updated};
ghost use Rattle.table_store.specs.Updates.{Updates, QueueMoved, SourceMoved, DestinationMoved, OpensEntry, ClosesEntry};
ghost use Rattle.table.specs.Layout.{record_from};
ghost use Rattle.table_tournament.specs.Replaying.{Replays};
ghost use Rattle.model.specs.State.{capacity};

use crate::key::key_of;
use connection::parts::{Connection, Destination};
use table::layout::{DESTINATION, OUT_OF_RATE, PACED, RECORD_WIDTH, RECORDS, WORDS};
use table_entry::destination::{destination_word, instant_word, put_turned};
use table_entry::record::{clear_record, put_rest};
use table_entry::source::{put_source, queue_word};
use table_names::filing::{file, unfile};
use table_names::used::flip_entry;
use table_tournament::replay::replay;

// The ready key of an entry, and the matches of its leaf, which are counted. It takes the key and not the connection,
// which would be copied for the call.
fn rekey(t: &mut [u64; WORDS], i: usize, key: u64) -> u32
    requires { i < capacity }
    ensures { Replays (set t.old (record_from i) key) t.new i result }
{
    t[RECORDS + i * RECORD_WIDTH] = key;
    replay(t, i)
}

// The words of its destination.
pub fn put_destination(t: &mut [u64; WORDS], i: usize, destination: Destination)
    requires { (i < capacity) × InstantInRange destination.made.last }
    ensures { t.new ≡ destination_put t.old i destination }
{
    update_efci(t, i, destination);
    put_turned(t, RECORDS + i * RECORD_WIDTH, destination);
}

// An entry whose connection has moved in its queue alone.
pub fn update_queue(t: &mut [u64; WORDS], i: usize, c: Connection) -> u32
    requires { (i < capacity) × InRange c }
    ensures { Updates QueueMoved t.old t.new i c result }
{
    let queue = c.queue;
    t[RECORDS + i * RECORD_WIDTH + PACED] = queue_word(queue);
    rekey(t, i, key_of(c))
}

// An entry whose connection has moved at its source.
pub fn update_source(t: &mut [u64; WORDS], i: usize, c: Connection) -> u32
    requires { (i < capacity) × InRange c }
    ensures { Updates SourceMoved t.old t.new i c result }
{
    put_source(t, RECORDS + i * RECORD_WIDTH, c);
    rekey(t, i, key_of(c))
}

// The same at its destination. Inlined, so that the connection is not copied for the call.
#[inline(always)]
pub fn update_destination(t: &mut [u64; WORDS], i: usize, c: Connection) -> u32
    requires { (i < capacity) × InRange c }
    ensures { Updates DestinationMoved t.old t.new i c result }
{
    let destination = c.destination;
    put_destination(t, i, destination);
    rekey(t, i, key_of(c))
}

// An entry where only the saved EFCI has moved. That moves no ready instant, so no winner changes.
pub fn update_efci(t: &mut [u64; WORDS], i: usize, destination: Destination)
    requires { i < capacity }
    ensures { t.new ≡ efci_updated t.old i destination }
{
    t[RECORDS + i * RECORD_WIDTH + DESTINATION] = destination_word(destination);
}

// An entry where only the last out-of-rate cell has moved. That moves no ready instant either.
pub fn update_out_of_rate(t: &mut [u64; WORDS], i: usize, last: Option<u64>)
    requires { (i < capacity) × InstantInRange last }
    ensures { t.new ≡ out_of_rate_updated t.old i last }
{
    t[RECORDS + i * RECORD_WIDTH + OUT_OF_RATE] = instant_word(last);
}

// An entry that a connection takes.
pub fn store(t: &mut [u64; WORDS], i: usize, c: Connection) -> u32
    requires { (i < capacity) × (InRange c × FixedFits c) }
    ensures { OpensEntry t.old t.new i c result }
{
    let b = RECORDS + i * RECORD_WIDTH;
    t[b] = key_of(c);
    put_rest(t, b, c);
    flip_entry(t, i);
    file(t, c.name, i);
    replay(t, i)
}

// An entry that a connection of this name leaves.
pub fn clear(t: &mut [u64; WORDS], i: usize, name: u32) -> u32
    requires { i < capacity }
    ensures { ClosesEntry t.old t.new i name result }
{
    clear_record(t, RECORDS + i * RECORD_WIDTH);
    flip_entry(t, i);
    unfile(t, name, i);
    replay(t, i)
}

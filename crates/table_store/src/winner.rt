// The entry of the winner of the tournament, to which a slot went: what it sent is stored, and all matches of its leaf
// are replayed (document 02, L4).
ghost use Rattle.std.specs.Prelude.{◌<◌, set};
ghost use Rattle.connection.specs.Range.{InRange};
ghost use Rattle.table_store.specs.Updates.{PacedUpdates, WinnerUpdates, SourceMoved, BothMoved};
ghost use Rattle.table.specs.Layout.{record_from};
ghost use Rattle.table_tournament.specs.Replaying.{ReplaysAll};
ghost use Rattle.model.specs.State.{capacity};

use crate::key::key_of;
use crate::store::put_destination;
use connection::parts::Connection;
use table::layout::{RECORD_WIDTH, RECORDS, WORDS};
use table_entry::source::{put_paced, put_source};
use table_tournament::replay::replay_all;

// The ready key of the winner's entry, and all matches of its leaf.
fn rekey_winner(t: &mut [u64; WORDS], i: usize, key: u64)
    requires { i < capacity }
    ensures { ReplaysAll (set t.old (record_from i) key) t.new i }
{
    t[RECORDS + i * RECORD_WIDTH] = key;
    replay_all(t, i);
}

// Its connection has moved in its queue and its pace alone. Nothing else of the connection is stored.
pub fn update_winner_paced(t: &mut [u64; WORDS], i: usize, c: Connection)
    requires { (i < capacity) × InRange c }
    ensures { PacedUpdates t.old t.new i c }
{
    put_paced(t, RECORDS + i * RECORD_WIDTH, c);
    rekey_winner(t, i, key_of(c));
}

// At its source.
pub fn update_winner_source(t: &mut [u64; WORDS], i: usize, c: Connection)
    requires { (i < capacity) × InRange c }
    ensures { WinnerUpdates SourceMoved t.old t.new i c }
{
    put_source(t, RECORDS + i * RECORD_WIDTH, c);
    rekey_winner(t, i, key_of(c));
}

// On both sides.
pub fn update_winner(t: &mut [u64; WORDS], i: usize, c: Connection)
    requires { (i < capacity) × InRange c }
    ensures { WinnerUpdates BothMoved t.old t.new i c }
{
    put_source(t, RECORDS + i * RECORD_WIDTH, c);
    let destination = c.destination;
    put_destination(t, i, destination);
    rekey_winner(t, i, key_of(c));
}

// An entry's connection out of its record.
ghost use Rattle.std.specs.Prelude.{◌≡◌, ◌<◌, ◌+◌, ◌≤◌};
ghost use Rattle.table.specs.Loading.{pace_of, waiting_of, payload_at, instant_of, queue_of, only_n, params_at, connection_at, first_line};
ghost use Rattle.table.specs.Layout.{size};
ghost use Rattle.model.specs.State.{capacity};

use crate::destination::no_payload;
use cell_payload::payload::Payload;
use connection::parts::{Change, Connection, Destination, Made, Pace, Queue};
use rate_moves::moves::Rate;
use rate_params::params::Params;
use table::layout::{
    COUNT_LIMIT, FACTOR_LIMIT, HALF, INSTANT_LIMIT, N_LIMIT, NAME_LIMIT, QUEUE_LIMIT, RECORD_WIDTH,
    RECORDS, VCI_LIMIT, WORDS,
};

fn pace_of(sent: u64, forward: u64, word: u64) -> Pace
    ensures { result ≡ pace_of sent forward word }
{
    let tag = word / HALF % HALF;
    if tag == 0 {
        return Pace::Unsent;
    }
    Pace::Running {
        sent: sent % INSTANT_LIMIT,
        forward: forward % INSTANT_LIMIT,
        k: (word % COUNT_LIMIT) as u32,
        turned: tag == 2,
    }
}

fn waiting_of(word: u64, p: Payload) -> Option<Payload>
    ensures { result ≡ waiting_of word p }
{
    if word % 4 < 2 { None } else { Some(p) }
}

fn payload_at(t: &[u64; WORDS], b: usize) -> Payload
    requires { b + 6 ≤ size }
    ensures { result ≡ payload_at t.now b }
{
    Payload {
        a: t[b],
        b: t[b + 1],
        c: t[b + 2],
        d: t[b + 3],
        e: t[b + 4],
        f: t[b + 5],
    }
}

fn instant_of(word: u64) -> Option<u64>
    ensures { result ≡ instant_of word }
{
    if word == 0 {
        None
    } else {
        Some((word - 1) % INSTANT_LIMIT)
    }
}

// The data that waits, and the VCI served last.
fn queue_of(word: u64) -> Queue
    ensures { result ≡ queue_of word }
{
    Queue {
        cells: (word % QUEUE_LIMIT) as u32,
        served: (word / HALF % HALF % VCI_LIMIT) as u32,
    }
}

// The parameters in the record that begins at b.
pub fn params_at(t: &[u64; WORDS], b: usize) -> Params
    requires { b + 24 ≤ size }
    ensures { result ≡ params_at t.now b }
{
    Params {
        pcr: (t[b + 12] % HALF) as u32,
        mcr: (t[b + 12] / HALF % HALF) as u32,
        icr: (t[b + 13] % HALF) as u32,
        n: (t[b + 1] / NAME_LIMIT % N_LIMIT) as u32,
        r: (t[b + 15] % FACTOR_LIMIT) as u32,
        d: (t[b + 15] / FACTOR_LIMIT % FACTOR_LIMIT) as u32,
        c: (t[b + 15] / HALF % FACTOR_LIMIT) as u32,
        tbe: (t[b + 14] % HALF) as u32,
        frtt: (t[b + 14] / HALF % HALF) as u32,
        adtf: (t[b + 13] / HALF % HALF) as u32,
        trm: (t[b + 15] / (HALF * FACTOR_LIMIT) % FACTOR_LIMIT) as u32,
    }
}

pub fn load(t: &[u64; WORDS], i: usize) -> Connection
    requires { i < capacity }
    ensures { result ≡ connection_at t.now i }
{
    let b = RECORDS + i * RECORD_WIDTH;
    let params = params_at(t, b);
    let pace = pace_of(t[b + 5], t[b + 6], t[b + 7]);
    let payload = payload_at(t, b + 16);
    let turned = waiting_of(t[b + 2], payload);
    let last = instant_of(t[b + 22]);
    let out_of_rate = instant_of(t[b + 23]);
    let queue = queue_of(t[b + 4]);
    Connection {
        name: (t[b + 1] % NAME_LIMIT) as u32,
        opened: t[b + 11] % INSTANT_LIMIT,
        trm: t[b + 1] / HALF % HALF,
        rate: Rate {
            acr: t[b + 3],
            params,
        },
        pace,
        unanswered: (t[b + 8] % HALF) as u32,
        queue,
        change: Change {
            before: t[b + 9],
            after: t[b + 10],
        },
        destination: Destination {
            efci: t[b + 2] % 2 == 1,
            turned,
            made: Made {
                level: (t[b + 2] / HALF % HALF) as u32,
                last,
            },
        },
        out_of_rate,
    }
}

fn only_n(n: u32) -> Params
    ensures { result ≡ only_n n }
{
    Params {
        pcr: 0,
        mcr: 0,
        icr: 0,
        n,
        r: 0,
        d: 0,
        c: 0,
        tbe: 0,
        frtt: 0,
        adtf: 0,
        trm: 0,
    }
}

// What the first line of a record shows of its connection: all that a data cell needs.
pub fn load_first_line(t: &[u64; WORDS], i: usize) -> Connection
    requires { i < capacity }
    ensures { result ≡ first_line (connection_at t.now i) }
{
    let b = RECORDS + i * RECORD_WIDTH;
    let params = only_n((t[b + 1] / NAME_LIMIT % N_LIMIT) as u32);
    let pace = pace_of(t[b + 5], t[b + 6], t[b + 7]);
    let payload = no_payload();
    let turned = waiting_of(t[b + 2], payload);
    let queue = queue_of(t[b + 4]);
    Connection {
        name: (t[b + 1] % NAME_LIMIT) as u32,
        opened: 0,
        trm: t[b + 1] / HALF % HALF,
        rate: Rate {
            acr: t[b + 3],
            params,
        },
        pace,
        unanswered: 0,
        queue,
        change: Change {
            before: 0,
            after: 0,
        },
        destination: Destination {
            efci: t[b + 2] % 2 == 1,
            turned,
            made: Made {
                level: (t[b + 2] / HALF % HALF) as u32,
                last: None,
            },
        },
        out_of_rate: None,
    }
}

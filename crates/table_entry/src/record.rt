// The words of a whole record, which begins at index b.
ghost use Rattle.std.specs.Prelude.{◌≡◌, ◌+◌, ◌≤◌, ◌<◌, ◌^◌, replicate};
ghost use Rattle.laws.specs.Blocks.{put_from, put};
ghost use Rattle.table.specs.Layout.{identity_word, factors_word, opened_words, rest_words, record_width, size};
ghost use Rattle.table.specs.Storing.{FixedFits};
ghost use Rattle.connection.specs.Range.{InRange};

use crate::destination::{destination_word, instant_word, put_turned};
use crate::source::{halves, put_source};
use connection::parts::Connection;
use rate_params::params::Params;
use table::layout::{FACTOR_LIMIT, HALF, NAME_LIMIT, RECORD_WIDTH, WORDS};

// Trm in nanoseconds, n and the name.
fn identity_word(c: Connection) -> u64
    requires { FixedFits c × (c.trm < 2 ^ 32) }
    ensures { result ≡ identity_word c }
{
    c.trm * HALF + (c.rate.params.n as u64 * NAME_LIMIT + c.name as u64)
}

// Trm, CDF, RDF and RIF as they were given.
fn factors_word(p: Params) -> u64
    requires { (p.trm < 2 ^ 16) × (p.c < 2 ^ 16) × (p.d < 2 ^ 16) × (p.r < 2 ^ 16) }
    ensures { result ≡ factors_word p }
{
    p.trm as u64 * (HALF * FACTOR_LIMIT)
        + (p.c as u64 * HALF + (p.d as u64 * FACTOR_LIMIT + p.r as u64))
}

// What its open fixed, but for its identity.
fn put_opened(t: &mut [u64; WORDS], b: usize, c: Connection)
    requires { (b + 24 ≤ size) × FixedFits c }
    ensures { t.new ≡ put_from t.old b 11 (opened_words c) }
{
    let p = c.rate.params;
    let rates = halves(p.mcr, p.pcr);
    let starts = halves(p.adtf, p.icr);
    let setup = halves(p.frtt, p.tbe);
    let factors = factors_word(p);
    t[b + 11] = c.opened;
    t[b + 12] = rates;
    t[b + 13] = starts;
    t[b + 14] = setup;
    t[b + 15] = factors;
}

// All words but the first, the key.
pub fn put_rest(t: &mut [u64; WORDS], b: usize, c: Connection)
    requires { (b + 24 ≤ size) × FixedFits c × InRange c }
    ensures { t.new ≡ put_from t.old b 1 (rest_words c) }
{
    let identity = identity_word(c);
    let destination = c.destination;
    let tag = destination_word(destination);
    let last = c.out_of_rate;
    let out_of_rate = instant_word(last);
    t[b + 1] = identity;
    t[b + 2] = tag;
    put_source(t, b, c);
    put_opened(t, b, c);
    put_turned(t, b, destination);
    t[b + 23] = out_of_rate;
}

// A record of zeros.
pub fn clear_record(t: &mut [u64; WORDS], b: usize)
    requires { b + 24 ≤ size }
    ensures { t.new ≡ put t.old b (replicate record_width 0) }
{
    t[b..b + RECORD_WIDTH].fill(0);
}

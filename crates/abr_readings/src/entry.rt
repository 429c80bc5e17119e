// Everything of the connection in an entry in use, each number straight from its word. The engine's own words are in
// range, so that nothing is brought into it here.
ghost use Rattle.std.specs.Prelude.{◌≡◌, ◌-◌, ◌<◌};
ghost use Rattle.table.specs.Loading.{high_in};
ghost use Rattle.model.specs.State.{capacity};
ghost use Rattle.abr_answers.specs.Status.{never};
ghost use Rattle.abr_readings.specs.Entry.{sent_in, instant_in, entry_at};

use crate::limits::Limits;
use crate::place::Place;
use abr_answers::status::AbrConnection;
use cell::name::VCIS;
use table::layout::{HALF, RECORD_WIDTH, RECORDS, WORDS};
use table_entry::load::params_at;

// An instant that never was or never comes.
const NEVER: u64 = u64::MAX;

// A cell's instant: never, if no cell was sent.
fn sent_shown(tag: u32, instant: u64) -> u64
    ensures { result ≡ sent_in tag instant }
{
    if tag == 0 { NEVER } else { instant }
}

// An instant out of its word, which is 0 for never and else 1 more.
fn instant_shown(word: u64) -> u64
    ensures { result ≡ instant_in word }
{
    if word == 0 { NEVER } else { word - 1 }
}

// The ready instant of a key, which is 2^64 - 1 less it: 2^64 - 1 for never, whose key is 0.
fn ready_shown(key: u64) -> u64
    ensures { result ≡ never - key }
{
    NEVER - key
}

// The upper number of a word with two.
fn high_shown(word: u64) -> u32
    ensures { result ≡ high_in word }
{
    (word / HALF % HALF) as u32
}

// The connection in a place, with its limits. The change is exact, as that of `allowed_of`.
pub fn read_entry(t: &[u64; WORDS], place: Place, limits: Limits) -> AbrConnection
    requires { place.entry < capacity }
    ensures { result ≡ entry_at t.now place limits }
{
    let i = place.entry;
    let leaf = i as u32;
    let name = place.name;
    let b = RECORDS + i * RECORD_WIDTH;
    let params = params_at(t, b);
    let tag = high_shown(t[b + 7]);
    let turned = t[b + 2];
    AbrConnection {
        refusal: 0,
        kind: place.kind,
        vpi: name / VCIS,
        vci: name % VCIS,
        leaf,
        waiting: place.waiting,
        params,
        crm: limits.crm,
        icr_used: limits.icr,
        acr: t[b + 3],
        change: (t[b + 10] % 4398046511104) as i64 - (t[b + 9] % 4398046511104) as i64,
        opened: t[b + 11],
        last_sent: sent_shown(tag, t[b + 5]),
        last_forward: sent_shown(tag, t[b + 6]),
        ready: ready_shown(t[b]),
        last_made: instant_shown(t[b + 22]),
        last_out_of_rate: instant_shown(t[b + 23]),
        k: (t[b + 7] % HALF) as u32,
        unanswered: (t[b + 8] % HALF) as u32,
        backward_sent: tag / 2,
        efci: (turned % 2) as u32,
        turned: (turned % HALF / 2) as u32,
        made_level: high_shown(turned),
        served: high_shown(t[b + 4]),
        reserved: 0,
    }
}

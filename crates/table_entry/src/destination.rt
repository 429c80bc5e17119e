// The words of the destination of a connection, and of an instant.
ghost use Rattle.std.specs.Prelude.{◌≡◌, ◌+◌, ◌≤◌};
ghost use Rattle.laws.specs.Blocks.{put_from};
ghost use Rattle.table.specs.Layout.{wait_tag, destination_tag, destination_word, instant_word, no_payload, waiting_payload, turned_words, size};
ghost use Rattle.connection.specs.Range.{InstantInRange};

use cell_payload::payload::Payload;
use connection::parts::Destination;
use table::layout::{HALF, WORDS};

fn wait_tag(w: Option<Payload>) -> u64
    ensures { (result ≡ wait_tag w) × (result ≤ 2) }
{
    match w {
        None => 0,
        Some(_) => 2,
    }
}

pub fn no_payload() -> Payload
    ensures { result ≡ no_payload }
{
    Payload {
        a: 0,
        b: 0,
        c: 0,
        d: 0,
        e: 0,
        f: 0,
    }
}

fn waiting_payload(w: Option<Payload>) -> Payload
    ensures { result ≡ waiting_payload w }
{
    w.unwrap_or(no_payload())
}

// The saved EFCI and whether a turned cell waits.
fn destination_tag(destination: Destination) -> u64
    ensures { (result ≡ destination_tag destination) × (result ≤ 3) }
{
    wait_tag(destination.turned) + destination.efci as u64
}

// With the level at which the made cell that waits was made.
pub fn destination_word(destination: Destination) -> u64
    ensures { result ≡ destination_word destination }
{
    destination.made.level as u64 * HALF + destination_tag(destination)
}

pub fn instant_word(i: Option<u64>) -> u64
    requires { InstantInRange i }
    ensures { result ≡ instant_word i }
{
    match i {
        None => 0,
        Some(t) => t + 1,
    }
}

// The waiting payload and the last making, in the record that begins at index b.
pub fn put_turned(t: &mut [u64; WORDS], b: usize, destination: Destination)
    requires { (b + 24 ≤ size) × InstantInRange destination.made.last }
    ensures { t.new ≡ put_from t.old b 16 (turned_words destination) }
{
    let p = waiting_payload(destination.turned);
    t[b + 16] = p.a;
    t[b + 17] = p.b;
    t[b + 18] = p.c;
    t[b + 19] = p.d;
    t[b + 20] = p.e;
    t[b + 21] = p.f;
    t[b + 22] = instant_word(destination.made.last);
}

// Where the connection of a name or of a leaf stands, and what of the answer depends on whose name it is (document 02,
// L4 and L13).
ghost use Rattle.std.specs.Prelude.{◌≡◌, ◌<◌, IfSome};
ghost use Rattle.model.specs.State.{capacity, free, find};
ghost use Rattle.model.specs.Status.{status_of, status_at};
ghost use Rattle.engine.specs.Contract.{MeetsReading};
ghost use Rattle.abr_readings.specs.Place.{own_place, Points};

use abr_answers::status::kind_shown;
use cell::name::NO_NAME;
use connection_members::path::path_of;
use table::layout::{CAPACITY, HALF, IDENTITY, NAME_LIMIT, RECORD_WIDTH, RECORDS, WORDS};
use table_members::find::{cells_at, find as find_member};
use table_names::find::find;

// An entry, read by this name, and its kind as C sees it; of a member's name, the cells that wait on the member.
#[derive(Clone, Copy)]
pub struct Place {
    pub name: u32,
    pub entry: usize,
    pub kind: u32,
    pub waiting: u32,
}

// The connection in entry i, by its own name.
fn own_place(t: &[u64; WORDS], i: usize, name: u32) -> Place
    requires { i < capacity }
    ensures { result ≡ own_place t.now i name }
{
    let waiting = (t[RECORDS + i * RECORD_WIDTH + 4] % HALF) as u32;
    Place {
        name,
        entry: i,
        kind: kind_shown(name, false),
        waiting,
    }
}

// Of a pair that is no open connection's: the path whose member it is.
fn member_place(t: &[u64; WORDS], name: u32) -> Option<Place>
    ensures inside { IfSome result (λ p. p.entry < capacity) }
    ensures points { MeetsReading (λ s. find name s.entries ≡ free → Points s (status_of s name) result) t.now }
{
    if NO_NAME <= name {
        return None;
    }
    let j = find_member(t, name)?;
    let i = find(t, path_of(name))?;
    Some(Place {
        name,
        entry: i,
        kind: kind_shown(name, true),
        waiting: cells_at(t, j),
    })
}

// A channel or a path is found first, so that it costs no search among the members.
pub fn place_of(t: &[u64; WORDS], name: u32) -> Option<Place>
    ensures inside { IfSome result (λ p. p.entry < capacity) }
    ensures points { MeetsReading (λ s. Points s (status_of s name) result) t.now }
{
    match find(t, name) {
        Some(i) => Some(own_place(t, i, name)),
        None => member_place(t, name),
    }
}

// A free entry has the name 0, which no connection has: its VCI is 6 or 32 and more.
pub fn place_at(t: &[u64; WORDS], leaf: u32) -> Option<Place>
    ensures inside { IfSome result (λ p. p.entry < capacity) }
    ensures points { MeetsReading (λ s. Points s (status_at s leaf) result) t.now }
{
    let i = leaf as usize;
    if CAPACITY <= i {
        return None;
    }
    let name = (t[RECORDS + i * RECORD_WIDTH + IDENTITY] % NAME_LIMIT) as u32;
    if name == 0 {
        return None;
    }
    Some(own_place(t, i, name))
}

// A member's word, found in eight halvings, and what waits on it.
ghost use Rattle.std.specs.Prelude.{◌≡◌, ◌≤◌, ◌<◌};
ghost use Rattle.connection_members.specs.Members.{member_capacity};
ghost use Rattle.cell.specs.Name.{no_name};
ghost use Rattle.table_members.specs.Place.{word_limit};
ghost use Rattle.table_members.specs.Words.{FindsMember, CellsAt, HasRoom};

use table::layout::{MEMBER_CAPACITY, MEMBER_LIMIT, MEMBERS, NAME_LIMIT, WORDS};
use table_column::column::at_least;

// The high bits of a member's word are NAME_LIMIT less its name: none are above NAME_LIMIT.
const ABOVE_NAMES: u64 = NAME_LIMIT + 1;

// The words of names below this one are at least this number, and no others.
pub fn word_limit(name: u64) -> u64
    requires { name ≤ no_name }
    ensures { result ≡ word_limit name }
{
    (ABOVE_NAMES - name) * MEMBER_LIMIT
}

// The first word behind those of lower names is the member's, if the name is one's.
pub fn find(t: &[u64; WORDS], name: u32) -> Option<usize>
    requires { name < no_name }
    ensures { FindsMember t.now name result }
{
    let p = at_least(t, MEMBERS, MEMBER_CAPACITY, word_limit(name as u64));
    if t[MEMBERS + p] / MEMBER_LIMIT != NAME_LIMIT - name as u64 {
        return None;
    }
    Some(p)
}

// What waits on the member in word i.
pub fn cells_at(t: &[u64; WORDS], i: usize) -> u32
    requires { i < member_capacity }
    ensures { CellsAt t.now i result }
{
    (t[MEMBERS + i] % MEMBER_LIMIT) as u32
}

// Whether there is room for another: the last word is 0.
pub fn has_room(t: &[u64; WORDS]) -> bool
    ensures { HasRoom t.now result }
{
    t[MEMBERS + (MEMBER_CAPACITY - 1)] == 0
}

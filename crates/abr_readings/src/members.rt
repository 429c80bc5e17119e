// A member of a path by its number, in the order of names (document 02, L13).
ghost use Rattle.std.specs.Prelude.{◌≡◌};
ghost use Rattle.model.specs.Returned.{member_as};
ghost use Rattle.model.specs.Status.{member_status_at};
ghost use Rattle.engine.specs.Contract.{MeetsReading};

use model::readings::Member;
use table::layout::{MEMBER_CAPACITY, MEMBER_LIMIT, MEMBERS, NAME_LIMIT, WORDS};

// The words of no member are 0 and come last.
pub fn read_member_at(t: &[u64; WORDS], number: u32) -> Option<Member>
    ensures { MeetsReading (λ s. member_as result ≡ member_status_at s number) t.now }
{
    let i = number as usize;
    if MEMBER_CAPACITY <= i {
        return None;
    }
    let word = t[MEMBERS + i];
    if word == 0 {
        return None;
    }
    Some(Member {
        name: (NAME_LIMIT - word / MEMBER_LIMIT % NAME_LIMIT) as u32,
        waiting: (word % MEMBER_LIMIT) as u32,
    })
}

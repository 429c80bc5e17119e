// A member more, a member less, all members of a path less, and other cells on a member.
ghost use Rattle.std.specs.Prelude.{◌≡◌, ◌+◌, ◌*◌, ◌/◌, ◌≤◌, ◌<◌};
ghost use Rattle.connection_members.specs.Members.{member_capacity};
ghost use Rattle.cell.specs.Name.{no_name};
ghost use Rattle.table_members.specs.Words.{SetsCells, Adds, RemovesMember, RemovesPath};

use crate::find::word_limit;
use cell::name::{VCIS, VPIS};
use connection_members::path::PATH_VCI;
use table::layout::{MEMBER_CAPACITY, MEMBER_LIMIT, MEMBERS, NAME_LIMIT, VCI_LIMIT, WORDS};
use table_column::column;

// A member's word with n cells.
fn with_cells(word: u64, n: u32) -> u64
    requires { n ≤ 65535 }
    ensures { result ≡ word / 65536 * 65536 + n }
{
    word / MEMBER_LIMIT * MEMBER_LIMIT + n as u64
}

// n cells wait on the member in word i.
pub fn set_cells(t: &mut [u64; WORDS], i: usize, n: u32)
    requires { (i < member_capacity) × (n ≤ 65535) }
    ensures { SetsCells i n t.old t.new }
{
    let p = MEMBERS + i;
    t[p] = with_cells(t[p], n);
}

pub fn add(t: &mut [u64; WORDS], name: u32)
    requires { name < no_name }
    ensures { Adds name t.old t.new }
{
    column::insert(
        t,
        MEMBERS,
        MEMBER_CAPACITY,
        (NAME_LIMIT - name as u64) * MEMBER_LIMIT,
    );
}

pub fn remove(t: &mut [u64; WORDS], name: u32)
    requires { name < no_name }
    ensures { RemovesMember name t.old t.new }
{
    column::remove(t, MEMBERS, MEMBER_CAPACITY, word_limit(name as u64));
}

// All members of a path leave; of a channel's name there are none.
pub fn remove_path(t: &mut [u64; WORDS], name: u32)
    ensures { RemovesPath name t.old t.new }
{
    if name % VCIS != PATH_VCI {
        return;
    }
    let first = (name / VCIS % VPIS) as u64 * VCI_LIMIT;
    column::remove_run(
        t,
        MEMBERS,
        MEMBER_CAPACITY,
        word_limit(first),
        word_limit(first + VCI_LIMIT),
    );
}

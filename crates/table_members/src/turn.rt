// Whose turn it is among the members of a path.
ghost use Rattle.std.specs.Prelude.{◌≤◌, ◌<◌};
ghost use Rattle.cell.specs.Name.{no_name};
ghost use Rattle.table_members.specs.Words.{Next, Turns, Serves};

use crate::find::word_limit;
use cell::name::{VCIS, VPIS};
use connection_members::path::PATH_VCI;
use table::layout::{MEMBER_CAPACITY, MEMBER_LIMIT, MEMBERS, NAME_LIMIT, VCI_LIMIT, WORDS};
use table_column::column::{count, count_up_to};

// The first member with data from word `first` on whose name is below `top`.
fn next(t: &[u64; WORDS], first: usize, top: u64) -> Option<usize>
    requires { top ≤ no_name }
    ensures { Next t.now first top result }
{
    let low = word_limit(top);
    for i in first..MEMBER_CAPACITY {
        let word = t[MEMBERS + i];
        if word < low {
            return None;
        }
        if 0 < word % MEMBER_LIMIT {
            return Some(i);
        }
    }
    None
}

// The first with data after the VCI served last, round to the lowest; of a channel's name there is none.
pub fn turn(t: &[u64; WORDS], name: u32, last: u16) -> Option<usize>
    ensures { Turns t.now name last result }
{
    if name % VCIS != PATH_VCI {
        return None;
    }
    let first = (name / VCIS % VPIS) as u64 * VCI_LIMIT;
    let top = first + VCI_LIMIT;
    let after = count(
        t,
        MEMBERS,
        MEMBER_CAPACITY,
        word_limit(first + last as u64 + 1),
    );
    // not `or_else`, whose closure would have to require what the two calls in it require
    match next(t, after, top) {
        Some(i) => Some(i),
        None => next(
            t,
            count_up_to(t, MEMBERS, MEMBER_CAPACITY, after, word_limit(first)),
            top,
        ),
    }
}

// One cell of the member whose turn it is goes; its name, or 0, as `Serves` has it, if it is no member's turn.
pub fn serve(t: &mut [u64; WORDS], name: u32, last: u16) -> u32
    ensures { Serves name last t.old t.new result }
{
    match turn(t, name, last) {
        None => 0,
        Some(i) => {
            let word = t[MEMBERS + i];
            t[MEMBERS + i] = word - 1;
            (NAME_LIMIT - word / MEMBER_LIMIT % NAME_LIMIT) as u32
        },
    }
}

// A member of a path, which an offer to it and its removal look for (document 02, L13).
ghost use Rattle.engine_paths.specs.Member.{FindsAddress};

use cell::name::{NO_NAME, address_name};
use table::layout::WORDS;
use table_members::find::find;

// Its word. A pair with a VCI out of its range is no member.
pub fn member_at(t: &[u64; WORDS], vpi: u32, vci: u32) -> Option<usize>
    ensures { FindsAddress t.now vpi vci result }
{
    let name = address_name(vpi, vci);
    if NO_NAME <= name {
        return None;
    }
    find(t, name)
}

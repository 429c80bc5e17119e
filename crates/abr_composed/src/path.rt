// The exported calls on a path and a member in a row, on one table, for the same end (document 02, L13).
ghost use Rattle.abr_composed.specs.PathCalls.{PathCalls};

use crate::Arguments;
use abr::connections::abr_close;
use abr::path::{abr_add_member, abr_offer_member, abr_open_path, abr_remove_member};
use abr_answers::calls::AbrClosed;
use table::layout::WORDS;

// The answer is that of closing the path.
pub fn path_calls(t: &mut [u64; WORDS], a: Arguments) -> AbrClosed
    ensures { PathCalls a t.old t.new result }
{
    let params = a.params;
    let opened = abr_open_path(t, a.vpi, a.time, params);
    let added = abr_add_member(t, a.vpi, a.vci);
    let offered = abr_offer_member(t, a.vpi, a.vci, a.cells);
    let removed = abr_remove_member(t, a.vpi, a.vci);
    abr_close(t, a.vpi, 6)
}

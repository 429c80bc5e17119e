// What is read of the link: how many connections and members there are, the congestion level and the last time.
ghost use Rattle.std.specs.Prelude.{◌≡◌};
ghost use Rattle.model.specs.Status.{totals};
ghost use Rattle.engine.specs.Contract.{MeetsReading};

use model::readings::Totals;
use table::layout::{CAPACITY, DIRECTORY, HALF, LAST, LEVEL, MEMBER_CAPACITY, MEMBERS, WORDS};
use table_column::column::count;

// Each open connection has a word in the directory and each member one in its column; the other words there are 0.
pub fn read_totals(t: &[u64; WORDS]) -> Totals
    ensures { MeetsReading (λ s. result ≡ totals s) t.now }
{
    let connections = count(t, DIRECTORY, CAPACITY, 1) as u32;
    let members = count(t, MEMBERS, MEMBER_CAPACITY, 1) as u32;
    Totals {
        connections,
        members,
        level: (t[LEVEL] % HALF) as u32,
        last: t[LAST],
    }
}

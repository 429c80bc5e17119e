// Reading one connection's allowed rate, and those before and after its last backward cell
// (document 01, "Slots"; document 02, L9).
ghost use Rattle.std.specs.Prelude.{◌≡◌};
ghost use Rattle.model.specs.Queries.{acr_of};
ghost use Rattle.model.specs.Returned.{allowed_as};
ghost use Rattle.engine.specs.Contract.{MeetsReading};

use model::readings::Allowed;
use table::layout::WORDS;
use table_entry::load::load;
use table_names::find::find;

// None is the refusal 11, the only one.
pub fn read_acr(t: &[u64; WORDS], name: u32) -> Option<Allowed>
    ensures { MeetsReading (λ s. allowed_as result ≡ acr_of s name) t.now }
{
    let i = find(t, name)?;
    let c = load(t, i);
    Some(Allowed {
        acr: c.rate.acr,
        change: c.change,
    })
}

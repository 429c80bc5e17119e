// Reading the rate codes of one connection's contract (document 02, L8).
ghost use Rattle.std.specs.Prelude.{◌≡◌};
ghost use Rattle.model.specs.Queries.{contract_of};
ghost use Rattle.model.specs.Returned.{codes_as};
ghost use Rattle.engine.specs.Contract.{MeetsReading};

use model::readings::Codes;
use table::layout::WORDS;
use table_entry::load::load;
use table_names::find::find;

// None is the refusal 11, the only one.
pub fn read_contract(t: &[u64; WORDS], name: u32) -> Option<Codes>
    ensures { MeetsReading (λ s. codes_as result ≡ contract_of s name) t.now }
{
    let i = find(t, name)?;
    let c = load(t, i);
    Some(Codes {
        pcr: c.rate.params.pcr,
        mcr: c.rate.params.mcr,
        icr: c.rate.params.icr,
    })
}

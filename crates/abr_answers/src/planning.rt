// What exporting a contract and importing a double return (document 02, L8).
ghost use Rattle.std.specs.Prelude.{◌≡◌};
ghost use Rattle.model.specs.Returned.{codes_as};
ghost use Rattle.abr_answers.specs.Planning.{ExportedAs, imported_of};

use laws::refusals::Refusal;
use model::readings::Codes;
use rate_doubles::export::{Exported, export};
use rate_doubles::import::Imported;

// The refusal, beside the rates that are returned.
#[derive(Clone, Copy)]
pub struct AbrExported {
    pub refusal: u32,
    pub rates: Exported,
}

impl From<Option<Codes>> for AbrExported {
    ghost from_gives = { λ a r. ExportedAs (codes_as a) r.refusal r.rates };

    fn from(answer: Option<Codes>) -> AbrExported {
        match answer {
            Some(Codes { pcr, mcr, icr }) => AbrExported {
                refusal: 0,
                rates: export(pcr, mcr, icr),
            },
            None => AbrExported {
                refusal: Refusal::NotOpen.number(),
                rates: Exported {
                    pcr: 0.0,
                    mcr: 0.0,
                    icr: 0.0,
                },
            },
        }
    }
}

// The remainder is 0 if the code's rate is the double itself.
#[repr(C)]
#[derive(Clone, Copy)]
pub struct AbrImported {
    pub refusal: u32,
    pub code: u32,
    pub remainder: f64,
}

impl From<Result<Imported, Refusal>> for AbrImported {
    ghost from_gives = { λ a r. r ≡ imported_of a };

    fn from(answer: Result<Imported, Refusal>) -> AbrImported {
        match answer {
            Ok(Imported::Exact(code)) => AbrImported {
                refusal: 0,
                code,
                remainder: 0.0,
            },
            Ok(Imported::Below { code, remainder }) => AbrImported {
                refusal: 0,
                code,
                remainder,
            },
            Err(refusal) => AbrImported {
                refusal: refusal.number(),
                code: 0,
                remainder: 0.0,
            },
        }
    }
}

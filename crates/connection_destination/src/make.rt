// Backward cells that a connection makes itself (document 02, L1).
ghost use Rattle.std.specs.Prelude.{◌≡◌, true, ◌<◌};
ghost use Rattle.cell.specs.Name.{no_name};
ghost use Rattle.cell.specs.Fields.{fields_fit};
ghost use Rattle.connection.specs.Destination.{with_made, made_fields};

use cell::fields::Fields;
use cell::name::VCIS;
use connection::parts::{Connection, Destination, Made};
use rate::canonical::canonical;
use rate_params::params::Params;

// A cell made at t, at this congestion level, waits in the place of an earlier made one.
#[tactic(auto, unfolding(connection::specs::Destination::with_made))]
pub fn with_made(t: u64, level: u32, c: Connection) -> Connection
    ensures { result ≡ with_made t level c }
{
    c.with_destination(Destination {
        made: Made {
            level,
            last: Some(t),
        },
        ..c.destination
    })
}

// The fields of a made cell.
#[tactic(auto, unfolding(connection::specs::Destination::made_fields))]
pub fn made_fields(name: u32, params: Params, level: u32) -> Fields
    ensures { (result ≡ made_fields name params level) × (name < no_name → fields_fit result ≡ true) }
{
    Fields {
        vpi: name / VCIS,
        vci: name % VCIS,
        dir: 1,
        bn: 1,
        ci: u32::from(level == 2),
        ni: u32::from(level == 1),
        ra: 0,
        er: canonical(params.pcr),
        ccr: 0,
        mcr: 0,
        ql: 0,
        sn: 0,
    }
}

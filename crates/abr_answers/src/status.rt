// What reading a whole connection, a member and the link return.
ghost use Rattle.std.specs.Prelude.{◌≡◌};
ghost use Rattle.model.specs.Returned.{member_as};
ghost use Rattle.abr_answers.specs.Status.{kind_shown, no_params, not_open, member_shown, totals_shown};

use cell::name::VCIS;
use connection_members::path::PATH_VCI;
use laws::refusals::Refusal;
use model::readings::{Member, Totals};
use rate_params::params::Params;
use table::layout::CAPACITY;

// kind 1 is a channel, 2 a path, 3 a member, of which everything but the name and what waits is its path's.
#[repr(C)]
#[derive(Clone, Copy)]
pub struct AbrConnection {
    pub refusal: u32,
    pub kind: u32,
    pub vpi: u32,
    pub vci: u32,
    pub leaf: u32,
    pub waiting: u32,
    pub params: Params,
    pub crm: u32,
    pub icr_used: u64,
    pub acr: u64,
    pub change: i64,
    pub opened: u64,
    pub last_sent: u64,
    pub last_forward: u64,
    pub ready: u64,
    pub last_made: u64,
    pub last_out_of_rate: u64,
    pub k: u32,
    pub unanswered: u32,
    pub backward_sent: u32,
    pub efci: u32,
    pub turned: u32,
    pub made_level: u32,
    pub served: u32,
    pub reserved: u32,
}

pub fn kind_shown(name: u32, member: bool) -> u32
    ensures { result ≡ kind_shown name member }
{
    if member {
        return 3;
    }
    if name % VCIS == PATH_VCI { 2 } else { 1 }
}

fn no_params() -> Params
    ensures { result ≡ no_params }
{
    Params {
        pcr: 0,
        mcr: 0,
        icr: 0,
        n: 0,
        r: 0,
        d: 0,
        c: 0,
        tbe: 0,
        frtt: 0,
        adtf: 0,
        trm: 0,
    }
}

// A pair or a leaf that stands for nothing.
pub fn not_open() -> AbrConnection
    ensures { result ≡ not_open }
{
    AbrConnection {
        refusal: Refusal::NotOpen.number(),
        kind: 0,
        vpi: 0,
        vci: 0,
        leaf: 0,
        waiting: 0,
        params: no_params(),
        crm: 0,
        icr_used: 0,
        acr: 0,
        change: 0,
        opened: 0,
        last_sent: 0,
        last_forward: 0,
        ready: 0,
        last_made: 0,
        last_out_of_rate: 0,
        k: 0,
        unanswered: 0,
        backward_sent: 0,
        efci: 0,
        turned: 0,
        made_level: 0,
        served: 0,
        reserved: 0,
    }
}

#[repr(C)]
#[derive(Clone, Copy)]
pub struct AbrMember {
    pub refusal: u32,
    pub vpi: u32,
    pub vci: u32,
    pub waiting: u32,
}

impl From<Option<Member>> for AbrMember {
    ghost from_gives = { λ a r. r ≡ member_shown (member_as a) };

    fn from(answer: Option<Member>) -> AbrMember {
        match answer {
            Some(Member { name, waiting }) => AbrMember {
                refusal: 0,
                vpi: name / VCIS,
                vci: name % VCIS,
                waiting,
            },
            None => AbrMember {
                refusal: Refusal::NotOpen.number(),
                vpi: 0,
                vci: 0,
                waiting: 0,
            },
        }
    }
}

#[repr(C)]
#[derive(Clone, Copy)]
pub struct AbrTotals {
    pub connections: u32,
    pub connections_max: u32,
    pub members: u32,
    pub level: u32,
    pub last: u64,
}

impl From<Totals> for AbrTotals {
    ghost from_gives = { λ a r. r ≡ totals_shown a };

    fn from(totals: Totals) -> AbrTotals {
        AbrTotals {
            connections: totals.connections,
            connections_max: CAPACITY as u32,
            members: totals.members,
            level: totals.level,
            last: totals.last,
        }
    }
}

// The number that names a connection (document 02, L6).
ghost use Rattle.std.specs.Prelude.{◌≡◌};
ghost use Rattle.cell.specs.Name.{address_name};

// The numbers of VPIs and of VCIs, and the highest of each.
pub const VPIS: u32 = 256;

pub const VCIS: u32 = 65536;

pub const VPI_MOST: u32 = 255;

pub const VCI_MOST: u32 = 65535;

// One more than the greatest name: no connection has it.
pub const NO_NAME: u32 = 16777216;

// The name of a pair; of numbers out of their ranges, the one that no connection has.
// No Option: the definition address_name, by which every call finds its connection, has that number.
#[tactic(auto, unfolding(crate::specs::Name::address_name))]
pub fn address_name(vpi: u32, vci: u32) -> u32
    ensures { result ≡ address_name vpi vci }
{
    if vpi > VPI_MOST {
        return NO_NAME;
    }
    if vci > VCI_MOST {
        return NO_NAME;
    }
    vpi * VCIS + vci
}

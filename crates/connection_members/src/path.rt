// The VCIs that are no caller's choice, and the name of a path (document 01, "Opening"; document 02, L13).
ghost use Rattle.std.specs.Prelude.{◌≡◌};
ghost use Rattle.connection_members.specs.Path.{path_of};

use cell::name::VCIS;

// The VCI of a path's own RM cells.
pub const PATH_VCI: u32 = 6;

// The lowest VCI of a channel or a member.
pub const FIRST_VCI: u32 = 32;

// The name of the path that has the VPI of a name.
pub fn path_of(name: u32) -> u32
    ensures { result ≡ path_of name }
{
    name / VCIS * VCIS + PATH_VCI
}

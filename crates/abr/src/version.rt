// What a caller compares with the header that it was compiled with.
ghost use Rattle.std.specs.Prelude.{◌≡◌};
ghost use Rattle.table.specs.Layout.{size};

use table::layout::WORDS;

// 1.0.0: major, minor and patch number, eight bits each.
const VERSION: u32 = 0x010000;

pub fn abr_version() -> u32
    ensures { result ≡ 0x010000 }
{
    VERSION
}

// The words of a table.
pub fn abr_table_words() -> u32
    ensures { result ≡ size }
{
    WORDS as u32
}

// What a caller compares with the header that it was compiled with.
ghost use Rattle.std.specs.Prelude.{◌≡◌};
ghost use Rattle.table.specs.Layout.{size};

#[unsafe(no_mangle)]
pub extern "C" fn abr_version() -> u32
    ensures { result ≡ 0x010000 }
{
    abr::version::abr_version()
}

#[unsafe(no_mangle)]
pub extern "C" fn abr_table_words() -> u32
    ensures { result ≡ size }
{
    abr::version::abr_table_words()
}

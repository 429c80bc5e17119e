// A reader of numbers: the octets of a trace, and an offset (document 02, L11).
ghost use Rattle.std.specs.Prelude.{◌≡◌};
ghost use Rattle.trace.specs.Numbers.{number_at};

use crate::number::number_at;
use laws::refusals::Refusal;

#[derive(Clone, Copy, Debug)]
pub struct Reader<'a> {
    pub octets: &'a [u8],
    pub offset: usize,
}

impl<'a> Reader<'a> {
    // A reader at an offset of a trace.
    pub fn over(octets: &'a [u8], offset: usize) -> Reader<'a>
        ensures { (result.octets ≡ octets.entry) × (result.offset ≡ offset) }
    {
        Reader { octets, offset }
    }

    // The number at the reader's offset, and the offset after it.
    #[inline(always)]
    pub fn read(self) -> Result<(u64, usize), Refusal>
        ensures { result ≡ number_at self.entry.octets.now self.entry.offset }
    {
        number_at(self.octets, self.offset)
    }
}

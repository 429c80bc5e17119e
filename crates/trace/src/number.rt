// A number in groups of seven bits, low group first; the top bit of an octet is 1 when more follow (document 02, L11).
ghost use Rattle.std.specs.Prelude.{◌≡◌};
ghost use Rattle.trace.specs.Numbers.{number_at};

use laws::refusals::Refusal;

// What a group's one counts in the tenth octet: nine octets hold 63 bits, so that the tenth can only be 1.
const TENTH_WEIGHT: u64 = 1 << 63;

// The number that starts at an offset, and the offset after its last octet. TraceNumber: not in shortest form, or over
// 64 bits; TraceEnd: the trace ends before it does. Inlined, as `Reader::read` and `number_within` are: where a number
// came back through memory, a judged cell took 1.6 to 3 times as long.
#[inline(always)]
pub fn number_at(octets: &[u8], offset: usize) -> Result<(u64, usize), Refusal>
    ensures { result ≡ number_at octets.now offset }
{
    let mut value: u64 = 0;
    let mut weight: u64 = 1;
    for k in offset..octets.len() {
        let octet = u64::from(octets[k]);
        if weight == TENTH_WEIGHT {
            return if octet == 1 {
                Ok((value + weight, k + 1))
            } else {
                Err(Refusal::TraceNumber)
            };
        }
        if octet < 128 {
            if octet == 0 && 1 < weight {
                return Err(Refusal::TraceNumber);
            }
            return Ok((value + octet * weight, k + 1));
        }
        value += (octet - 128) * weight;
        weight *= 128;
    }
    Err(Refusal::TraceEnd)
}

// The judge of a foreign transmitter, without a table.
ghost use Rattle.std.specs.Prelude.{◌≡◌};
ghost use Rattle.trace_judge.specs.Octets.{judged_octets};
ghost use Rattle.abr_answers.specs.Traces.{judged_of};

use abr_answers::traces::AbrVerdict;

#[unsafe(no_mangle)]
pub extern "C" fn abr_judge(trace: &[u8]) -> AbrVerdict
    ensures { result ≡ judged_of (judged_octets trace.now) }
{
    abr::traces::abr_judge(trace)
}

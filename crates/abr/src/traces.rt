// The judge of a foreign transmitter, without a table (document 02, L11).
ghost use Rattle.std.specs.Prelude.{◌≡◌};
ghost use Rattle.trace_judge.specs.Octets.{judged_octets};
ghost use Rattle.abr_answers.specs.Traces.{judged_of};

use abr_answers::traces::AbrVerdict;
use trace_judge::judge::judge;

// Refusals 23, 24, 25.
pub fn abr_judge(trace: &[u8]) -> AbrVerdict
    ensures { result ≡ judged_of (judged_octets trace.now) }
{
    AbrVerdict::from(judge(trace))
}

// Feedback on a record that is lent (document 01, "Four moves of the allowed rate" and "The forms we expect"): the one
// place where a record is lent.
ghost use Rattle.std.specs.Prelude.{◌≡◌};
ghost use Rattle.rate_moves.specs.Moves.{feedback};

use rate_moves::moves::Rate;

// The record is lent, and what its feedback move hands back is stored.
pub fn apply_feedback(rate: &mut Rate, ci: bool, ni: bool, er: u64)
    ensures { rate.new ≡ feedback ci ni er rate.old }
{
    *rate = rate.feedback(ci, ni, er);
}

// A record by value, lent and handed back.
pub fn with_feedback(mut rate: Rate, ci: bool, ni: bool, er: u64) -> Rate
    ensures { result ≡ feedback ci ni er rate }
{
    apply_feedback(&mut rate, ci, ni, er);
    rate
}

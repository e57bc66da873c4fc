// Which refusal is true of a plain call, if any.
ghost use Rattle.std.specs.Prelude.{◌≡◌};
ghost use Rattle.answers.specs.Refusal.{plain_verdict};

use crate::refusals::Refusal;
use rule_types::counts;
use thresholds::Thresholds;

// The first of the refusals 1 to 5 that is true of a plain call. whole: what the history was lent in makes whole bars.
pub fn plain_verdict(
    k: u32,
    di: u32,
    t: Thresholds,
    whole: bool,
    count: usize,
) -> Result<(), Refusal>
    ensures { result ≡ plain_verdict k di t whole count }
{
    if counts::RECOGNISERS <= k as usize {
        return Err(Refusal::UnknownRecogniser);
    }
    if di == 0 {
        return Err(Refusal::ZeroOffset);
    }
    let valid = t.is_valid();
    if !valid {
        return Err(Refusal::BadThreshold);
    }
    if !whole {
        return Err(Refusal::BrokenBars);
    }
    if counts::MOST_BARS < count {
        return Err(Refusal::TooManyBars);
    }
    Ok(())
}

// Which refusal is true of a call on a box, if any.
ghost use Rattle.std.specs.Prelude.{◌≡◌};
ghost use Rattle.answers.specs.Refusal.{first_true, feed_verdict, checked_tried, look_verdict};

use crate::refusals::Refusal;
use rule_types::counts;
use thresholds::Thresholds;

// The first of the refusals 3 to 6 that is true of a call that is checked as a feed to a box that counts n bars. Three that such a call may
// try besides the caller has tested: layer says that 12 is not true, whole and right that nothing else is that 4 and 5 also cover.
pub fn checked(
    t: Thresholds,
    layer: bool,
    n: u32,
    prices: usize,
    whole: bool,
    right: bool,
    sheet: usize,
) -> Result<(), Refusal>
    ensures { result ≡ first_true (checked_tried t layer n prices whole right sheet) }
{
    let valid = t.is_valid();
    if !valid {
        return Err(Refusal::BadThreshold);
    }
    if !layer {
        return Err(Refusal::BadLayer);
    }
    if prices % 4 != 0 {
        return Err(Refusal::BrokenBars);
    }
    if !whole {
        return Err(Refusal::BrokenBars);
    }
    let bars = prices / 4;
    if counts::MOST_BARS < n as usize + bars {
        return Err(Refusal::TooManyBars);
    }
    if !right {
        return Err(Refusal::TooManyBars);
    }
    if sheet < counts::ROW_BYTES * bars {
        return Err(Refusal::ShortSheet);
    }
    Ok(())
}

// The first of the refusals 3 to 6 that is true of a feed to a box that counts n bars.
pub fn feed_verdict(t: Thresholds, n: u32, prices: usize, sheet: usize) -> Result<(), Refusal>
    ensures { result ≡ feed_verdict t n prices sheet }
{
    checked(t, true, n, prices, true, true, sheet)
}

// The first of the refusals 1, 2, 3, 5 and 7 that is true of a look at a box that counts n bars.
pub fn look_verdict(k: u32, di: u32, t: Thresholds, n: u32) -> Result<(), Refusal>
    ensures { result ≡ look_verdict k di t n }
{
    if counts::RECOGNISERS <= k as usize {
        return Err(Refusal::UnknownRecogniser);
    }
    if di == 0 {
        return Err(Refusal::ZeroOffset);
    }
    let valid = t.is_valid();
    if !valid {
        return Err(Refusal::BadThreshold);
    }
    if counts::MOST_BARS < n as usize {
        return Err(Refusal::TooManyBars);
    }
    if counts::FARTHEST_LOOK < di {
        return Err(Refusal::FarLook);
    }
    Ok(())
}

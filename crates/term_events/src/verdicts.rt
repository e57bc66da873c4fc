// Why a making, a run or a close is refused. Hours, term length and what is carried come one by one: the public functions make_verdict, run_verdict,
// close_verdict and `events::pass`, which docs/ name, take them so.
ghost use Rattle.std.specs.Prelude.{◌≡◌};
ghost use Rattle.recognisers.specs.Refusal.{first_true};
ghost use Rattle.term_events.specs.Verdicts.{sound_carried, valid_layer, above, stamps_tried, make_verdict, run_verdict, close_verdict};
ghost use Rattle.term_events.specs.EventSteps.{end_after, EndKnown};

use crate::events;
use crate::events::Carried;
use measures::Bar;
use recognisers::box_verdicts::checked;
use recognisers::{Refusal, Thresholds};
use trading_hours::{Hours, hours};

// Whether a kept stamp lies in the hours and an open term bar has a stamp.
fn sound(h: Hours, last: Option<u32>, pending: Option<Bar>) -> bool
    ensures { result ≡ sound_carried h last pending }
{
    match last {
        Some(s) => hours::in_hours(h, s),
        None => pending.is_none(),
    }
}

// Whether refusal 12 is not true.
fn layer_valid(h: Hours, m: u32, c: Carried) -> bool
    ensures { result ≡ valid_layer h m c }
{
    hours::hours_valid(h) && hours::term_length(m) && sound(h, c.last, c.pending)
}

// The first of the refusals 3 and 12 that is true of a making.
pub fn make_verdict(t: Thresholds, h: Hours, m: u32) -> Result<(), Refusal>
    ensures { result ≡ make_verdict t h m }
{
    if !t.is_valid() {
        return Err(Refusal::BadThreshold);
    }
    let none = Carried::default();
    if !layer_valid(h, m, none) {
        return Err(Refusal::BadLayer);
    }
    Ok(())
}

// Whether a stamp is above the last one.
fn is_above(last: Option<u32>, stamp: u32) -> bool
    ensures { result ≡ above last stamp }
{
    match last {
        None => true,
        Some(s) => s < stamp,
    }
}

// The first of the refusals 10 and 11 that is true of stamps, bar by bar.
fn stamps_verdict(h: Hours, m: u32, before: Option<u32>, stamps: &[u32]) -> Result<(), Refusal>
    requires { EndKnown h m before (end_after h m before) }
    ensures { result ≡ first_true (stamps_tried h before stamps.now) }
{
    let mut last = before;
    let mut end = events::end_after(h, m, before);
    for &stamp in stamps {
        if !is_above(last, stamp) {
            return Err(Refusal::LateStamp);
        }
        if !events::is_inside(h, end, stamp) {
            return Err(Refusal::OutsideHours);
        }
        end = events::next_end(h, m, end, stamp);
        last = Some(stamp);
    }
    Ok(())
}

// The first of the refusals 3, 12, 4, 5, 6, 10 and 11 that is true of a run to a layer whose box counts n bars.
pub fn run_verdict(
    t: Thresholds,
    h: Hours,
    m: u32,
    c: Carried,
    n: u32,
    prices: usize,
    stamps: &[u32],
    sheet: usize,
) -> Result<(), Refusal>
    ensures { result ≡ run_verdict t h m c n prices stamps.now sheet }
{
    let layer = layer_valid(h, m, c);
    let one_each = stamps.len() == prices / 4;
    checked(t, layer, n, prices, one_each, true, sheet)?;
    stamps_verdict(h, m, c.last, stamps)
}

// The first of the refusals 3, 12, 5 and 6 that is true of a close.
pub fn close_verdict(
    t: Thresholds,
    h: Hours,
    m: u32,
    c: Carried,
    n: u32,
    sheet: usize,
) -> Result<(), Refusal>
    ensures { result ≡ close_verdict t h m c n sheet }
{
    let layer = layer_valid(h, m, c);
    checked(t, layer, n, 4, true, true, sheet)
}

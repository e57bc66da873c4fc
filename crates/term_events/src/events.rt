// Term bars from minute bars, one after the other.
ghost use Rattle.std.specs.Prelude.{◌≡◌, ltb, length, drop};
ghost use Rattle.measures.specs.Bar.{bars_of};
ghost use Rattle.term_events.specs.Events.{joined_bar, step_by, open_bars};
ghost use Rattle.term_events.specs.EventSteps.{end_after, next_end, inside_by, put_ended, pass_of};

use measures::{Bar, max, min};
use trading_hours::{Hours, hours};

// What is carried from one bar to the next: the stamp of the last bar taken in, and the open term bar.
#[derive(Clone, Copy, Default)]
pub struct Carried {
    pub last: Option<u32>,
    pub pending: Option<Bar>,
}

// The term bar that a bar ended, if any, and what is carried on.
#[derive(Clone, Copy)]
struct Step {
    pub ended: Option<Bar>,
    pub carried: Carried,
}

// A term's bar with the next bar of the term.
fn join(a: Bar, b: Bar) -> Bar
    ensures { result ≡ joined_bar a b }
{
    Bar {
        open: a.open,
        close: b.close,
        high: max(a.high, b.high),
        low: min(a.low, b.low),
    }
}

// The end of the term of the last stamp. 0 for none, not an `Option`: each stamp is then at or above it, so that nothing has to be asked bar by bar.
pub(crate) fn end_after(h: Hours, m: u32, last: Option<u32>) -> usize
    ensures { result ≡ end_after h m last }
{
    match last {
        None => 0,
        Some(s) => hours::end_of(h, m, s),
    }
}

// The end of the term of a stamp above the last one, whose term's end is this: divisions happen once a term.
pub(crate) fn next_end(h: Hours, m: u32, end: usize, stamp: u32) -> usize
    ensures { result ≡ next_end h m end stamp }
{
    if (stamp as usize) < end {
        return end;
    }
    hours::end_of(h, m, stamp)
}

// Whether a stamp above the last one, whose term's end is this, lies in the hours.
pub(crate) fn is_inside(h: Hours, end: usize, stamp: u32) -> bool
    ensures { result ≡ inside_by h end stamp }
{
    (stamp as usize) < end || hours::in_hours(h, stamp)
}

// One bar, which is of the open term if its stamp lies before this end.
fn step_by(c: Carried, end: usize, stamp: u32, b: Bar) -> Step
    ensures { result ≡ step_by (ltb stamp end) c stamp b }
{
    let last = Some(stamp);
    match c.pending {
        Some(a) if (stamp as usize) < end => Step {
            ended: None,
            carried: Carried {
                last,
                pending: Some(join(a, b)),
            },
        },
        ended => Step {
            ended,
            carried: Carried {
                last,
                pending: Some(b),
            },
        },
    }
}

// The prices of an ended term bar go to a place of a run, if there is room; the answer is how many bars ended.
fn put_ended(ended: Option<Bar>, run: &mut [f64], place: usize) -> usize
    ensures { (result ≡ length (open_bars ended)) × (run.new ≡ put_ended run.old place ended) }
{
    match ended {
        None => 0,
        Some(b) => {
            measures::put_bar(b, run, place);
            1
        }
    }
}

// The bar at which passing stopped, how many term bars ended in those that were passed, and what is carried on.
#[derive(Clone, Copy)]
pub struct Passed {
    pub at: usize,
    pub count: usize,
    pub carried: Carried,
}

// Passes bars from one on until none is left or the next one ends a term bar for which there is no room; the prices of those that ended go
// to the front of a run. Prices and stamps are two slices, since jcc_terms and `terms::run` are lent them so.
pub fn pass(
    h: Hours,
    m: u32,
    c: Carried,
    prices: &[f64],
    stamps: &[u32],
    from: usize,
    run: &mut [f64],
) -> Passed
    ensures { let left = pass_of h m (bars_of prices.now) c (end_after h m c.last) from 0 run.old (drop from stamps.now) in
        (result ≡ left.0) × (run.new ≡ left.1) }
{
    let room = run.len() / 4;
    let mut carried = c;
    let mut end = end_after(h, m, c.last);
    let mut count = 0usize;
    for k in from..stamps.len() {
        let stamp = stamps[k];
        let bar = measures::bar_or_none(prices, k);
        let next = step_by(carried, end, stamp, bar);
        if next.ended.is_some() && count == room {
            return Passed {
                at: k,
                count,
                carried,
            };
        }
        end = next_end(h, m, end, stamp);
        count += put_ended(next.ended, run, count);
        carried = next.carried;
    }
    Passed {
        at: from.max(stamps.len()),
        count,
        carried,
    }
}

// The extremes of windows that slide along a run: those of the 20 bars that end with each of twenty bars, all at once. Windows of neighbours
// share bars: the extremes of the older bars of all windows are made from the newest back, those of the newer ones grow bar by bar, and one
// comparison joins the two, so that a bar takes three comparisons a column, not twenty. All is proved, nothing is assumed, and no public
// function has a `requires`: each contract is an equation with a definition of specs/, for every input.
#![tactic(auto)]

ghost use Rattle.std.specs.Prelude.{◌≡◌, [], ◌≤◌, length};
ghost use Rattle.measures.specs.Bar.{bars_of};
ghost use Rattle.measures.specs.Fold.{extremes_of};
ghost use Rattle.rule_types.specs.Number.{quarter_bars};
ghost use Rattle.sliding_extremes.specs.WindowExtreme.{window_extremes};
ghost use Rattle.sliding_extremes.specs.WindowExtremeSteps.{with_newer, with_older, next_older, joined, older_extremes};

use measures::{Bar, Extremes, bar_or_none, count, pick, price};
use rule_types::counts::QUARTER_BARS;

// The extremes of no bar.
fn no_bars() -> Extremes
    ensures { result ≡ extremes_of [] }
{
    Extremes {
        highest: price::minus_infinity(),
        lowest: price::plus_infinity(),
    }
}

// What comes later enters if it is beyond.
fn with_newer(e: Extremes, high: f64, low: f64) -> Extremes
    ensures { result ≡ with_newer e high low }
{
    Extremes {
        highest: pick(high > e.highest, high, e.highest),
        lowest: pick(low < e.lowest, low, e.lowest),
    }
}

// An older bar enters if nothing is beyond it.
fn with_older(e: Extremes, b: Bar) -> Extremes
    ensures { result ≡ with_older e b }
{
    Extremes {
        highest: pick(b.high >= e.highest, b.high, e.highest),
        lowest: pick(b.low <= e.lowest, b.low, e.lowest),
    }
}

// The i-th bar before a place enters, if there is one.
fn next_older(e: Extremes, prices: &[f64], at: usize, i: usize) -> Extremes
    ensures { result ≡ next_older e (bars_of prices.now) at i }
{
    if i <= at {
        with_older(e, bar_or_none(prices, at - i))
    } else {
        e
    }
}

// The extremes of the 19 - k bars before a place come to stand in the k-th place.
fn older(prices: &[f64], at: usize, places: &mut [Extremes])
    requires { (at ≤ length (bars_of prices.now)) × (length places.old ≡ quarter_bars) }
    ensures { places.new ≡ older_extremes (bars_of prices.now) at }
{
    let mut e = no_bars();
    for k in (0..QUARTER_BARS).rev() {
        places[k] = e;
        e = next_older(e, prices, at, QUARTER_BARS - k);
    }
}

// The extremes of a window from those of its older and of its newer bars; of no bar where there is no window.
fn join(inside: bool, older: Extremes, newer: Extremes) -> Extremes
    ensures { result ≡ joined inside older newer }
{
    if inside {
        with_newer(older, newer.highest, newer.lowest)
    } else {
        no_bars()
    }
}

// What stands in each place is joined with the extremes of the bars from the place at on, up to the bar of the place.
fn newer(prices: &[f64], at: usize, places: &mut [Extremes])
    requires { (at ≤ length (bars_of prices.now)) × (places.old ≡ older_extremes (bars_of prices.now) at) }
    ensures { places.new ≡ window_extremes (bars_of prices.now) at }
{
    let n = count(prices);
    let mut e = no_bars();
    for k in 0..QUARTER_BARS {
        let b = bar_or_none(prices, at + k);
        e = with_newer(e, b.high, b.low);
        places[k] = join(at + k < n, places[k], e);
    }
}

// The extremes of the windows that end with the bars of a run from the place at on, twenty of them: in the k-th place those of the newest 20
// bars up to the bar at + k, counted from 0, and the infinities where there is no such bar. Each is an `Extremes`, as a rule of the quarter
// takes it.
pub fn window_extremes(prices: &[f64], at: usize) -> [Extremes; QUARTER_BARS]
    ensures { result ≡ window_extremes (bars_of prices.now) at }
{
    let from = at.min(count(prices));
    let mut places = [no_bars(); QUARTER_BARS];
    older(prices, from, &mut places);
    newer(prices, from, &mut places);
    places
}

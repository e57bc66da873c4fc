// The recognisers that read the quarter: 0, 1, 7, 8 and 15. b1 is the judged bar, b2 the one before.
// All is proved, nothing is assumed, and no public function has a `requires`: each contract is an equation with a definition of specs/,
// for every input.
// Bars come one by one, newest first, as the definitions name them: an array of them would put numbers in place of names.
#![tactic(auto)]

ghost use Rattle.std.specs.Prelude.{◌≡◌};
ghost use Rattle.measures.specs.Bar.{bars_of};
ghost use Rattle.quarter_rules.specs.QuarterRule.{quarter_in, quarter_of, quarter_extremes, cut_of, umbrella_of, san_xing_xian, engulfs_up, engulfs_down, ten_mo, parts_down, parts_up, fen_shou_xian, candle_of, zhu_huo_xian, counters_of, counters_up, counters_down, fan_ji_xian};

use measures::{Bar, Extremes};
use rule_types::counts::QUARTER_BARS;
use rule_types::label::{Label, Pair, pair_b, pick};
use std::num;

// The side of the quarter that the judged bar reaches into; the low side is tried first.
#[derive(Clone, Copy, Debug, PartialEq, Eq)]
pub struct Quarter {
    pub low: bool,
    pub high: bool,
}

// deep: p is 22 or more; otherwise no side counts.
pub fn quarter_in(deep: bool, e: Extremes, b1: Bar) -> Quarter
    ensures { result ≡ quarter_in deep e b1 }
{
    Quarter {
        low: deep & measures::in_low_side(e, b1),
        high: deep & measures::in_high_side(e, b1),
    }
}

// The extremes of the window of 20 bars.
pub fn quarter_extremes(w: &[f64]) -> Extremes
    ensures { result ≡ quarter_extremes (bars_of w.now) }
{
    measures::extremes_of(measures::last_bars(w, 1, QUARTER_BARS))
}

#[tactic(auto, unfolding(crate::specs::QuarterRule::quarter_of))]
pub fn quarter_of(deep: bool, w: &[f64]) -> Quarter
    ensures { result ≡ quarter_of deep (bars_of w.now) }
{
    quarter_in(deep, quarter_extremes(w), measures::back(w, 1))
}

// 0: san_xing_xian

// x cut to a whole number; 0 if x is not above -1 and below 2^64.
#[tactic(auto, unfolding(crate::specs::QuarterRule::cut_of))]
fn cut(x: f64) -> f64
    ensures { result ≡ cut_of x }
{
    if x > -1.0 && x < 18446744073709551616.0 {
        num::nearest_u64_to_f64(num::truncating_f64_to_u64(x))
    } else {
        0.0
    }
}

// A long lower shadow and a short upper one.
#[tactic(auto, unfolding(crate::specs::QuarterRule::umbrella_of))]
fn is_umbrella(b: Bar, th: f64) -> bool
    ensures { result ≡ umbrella_of th b }
{
    let t = cut(th * 100.0);
    let body = measures::body(b);
    (measures::lower(b) > body * t / 100.0) & (measures::upper(b) < 0.2 * body)
}

#[tactic(auto, unfolding(crate::specs::QuarterRule::san_xing_xian))]
pub fn san_xing_xian(th: f64, q: Quarter, b1: Bar) -> Pair
    ensures { result ≡ san_xing_xian th q b1 }
{
    Pair {
        v1: pick(is_umbrella(b1, th), Label::Met, Label::Other),
        v2: pick(
            q.low,
            Label::Hammer,
            pick(q.high, Label::HangingMan, Label::Other),
        ),
    }
}

// 1: ten_mo

// The two are mirrors, with each comparison turned round: one function of both, told which, would be no plainer. So it is with
// parts_down and parts_up, and with counters_up and counters_down.
fn engulfs_up(b1: Bar, b2: Bar) -> bool
    ensures { result ≡ engulfs_up b1 b2 }
{
    (b1.close > b1.open) & (b1.close > b2.high) & (b1.open < b2.low)
}

fn engulfs_down(b1: Bar, b2: Bar) -> bool
    ensures { result ≡ engulfs_down b1 b2 }
{
    (b1.close < b1.open) & (b1.close < b2.low) & (b1.open > b2.high)
}

#[tactic(auto, unfolding(crate::specs::QuarterRule::ten_mo))]
pub fn ten_mo(q: Quarter, b1: Bar, b2: Bar) -> Pair
    ensures { result ≡ ten_mo q b1 b2 }
{
    let down = pick(
        q.high & engulfs_down(b1, b2),
        Label::BearishEngulfing,
        Label::Other,
    );
    Pair {
        v1: pick(
            (b1.high > b2.high) & (b1.low < b2.low),
            Label::Met,
            Label::Other,
        ),
        v2: pick(q.low & engulfs_up(b1, b2), Label::BullishEngulfing, down),
    }
}

// 7: fen_shou_xian. Few bars open where the one before did, so that most need no division.

fn parts_down(zdf: u32, b1: Bar, b2: Bar) -> bool
    ensures { result ≡ parts_down zdf b1 b2 }
{
    b1.open == b2.open
        && (b1.close < b2.low)
            & (b2.close > b2.open)
            & ((b2.close - b1.close) / b2.close * 10000.0 > zdf as f64)
}

fn parts_up(zdf: u32, b1: Bar, b2: Bar) -> bool
    ensures { result ≡ parts_up zdf b1 b2 }
{
    b1.open == b2.open
        && (b1.close > b2.high)
            & (b2.close < b2.open)
            & ((b1.close - b2.close) / b2.close * 10000.0 > zdf as f64)
}

// Equal opens bind the first alternative only.
#[tactic(auto, unfolding(crate::specs::QuarterRule::fen_shou_xian))]
pub fn fen_shou_xian(zdf: u32, q: Quarter, b1: Bar, b2: Bar) -> Pair
    ensures { result ≡ fen_shou_xian zdf q b1 b2 }
{
    let met = ((b1.open == b2.open) & (b1.close < b2.low)) | (b1.close > b2.high);
    let rising = pick(
        q.high & parts_up(zdf, b1, b2),
        Label::RisingSeparatingLines,
        Label::Other,
    );
    Pair {
        v1: pick(met, Label::Met, Label::Other),
        v2: pick(
            q.low & parts_down(zdf, b1, b2),
            Label::FallingSeparatingLines,
            rising,
        ),
    }
}

// 8: zhu_huo_xian

#[tactic(auto, unfolding(crate::specs::QuarterRule::candle_of))]
fn is_candle(b: Bar, th: f64, zf: u32) -> bool
    ensures { result ≡ candle_of th zf b }
{
    let up = measures::upper(b);
    let down = measures::lower(b);
    let body = measures::body(b);
    (up > body * th / 100.0)
        & (down < 0.2 * body)
        & (down < 0.5 * up)
        & ((b.low != 0.0) & ((b.high - b.low) / b.low * 10000.0 >= zf as f64))
}

#[tactic(auto, unfolding(crate::specs::QuarterRule::zhu_huo_xian))]
pub fn zhu_huo_xian(th: f64, zf: u32, q: Quarter, b1: Bar) -> Pair
    ensures { result ≡ zhu_huo_xian th zf q b1 }
{
    Pair {
        v1: pick(is_candle(b1, th, zf), Label::Met, Label::Other),
        v2: pick(
            q.low,
            Label::ArrowOnString,
            pick(q.high, Label::CandleInWind, Label::Other),
        ),
    }
}

// 15: fan_ji_xian, which names its bars oldest first: bar3 is the judged one

// Whether bar3 opens a body or more from the close of bar2 and comes back to it, after a body of some size. Few bars open that far off, so
// that one division is made for most.
#[tactic(auto, unfolding(crate::specs::QuarterRule::counters_of))]
fn counters(e: Extremes, bar2: Bar, bar3: Bar) -> bool
    ensures { result ≡ counters_of e bar2 bar3 }
{
    let body2 = measures::body(bar2);
    let x1 = measures::abs(bar3.open - bar2.close) / body2;
    (bar2.close != bar2.open) & (x1 >= 1.0)
        && (measures::abs(bar3.close - bar2.close) / body2 <= 0.1)
            & (body2 / (e.highest - e.lowest) >= 0.02)
}

fn counters_up(e: Extremes, bar1: Bar, bar2: Bar, bar3: Bar) -> bool
    ensures { result ≡ counters_up e bar1 bar2 bar3 }
{
    measures::in_low_side(e, bar1)
        & (bar1.close > bar2.close)
        & (bar2.open > bar2.close)
        & (bar2.close > bar3.open)
}

fn counters_down(e: Extremes, bar1: Bar, bar2: Bar, bar3: Bar) -> bool
    ensures { result ≡ counters_down e bar1 bar2 bar3 }
{
    measures::in_high_side(e, bar1)
        & (bar2.close > bar1.close)
        & (bar3.open > bar2.close)
        & (bar2.close > bar2.open)
}

#[tactic(auto, unfolding(crate::specs::QuarterRule::fan_ji_xian))]
pub fn fan_ji_xian(e: Extremes, bar1: Bar, bar2: Bar, bar3: Bar) -> Pair
    ensures { result ≡ fan_ji_xian e bar1 bar2 bar3 }
{
    if counters(e, bar2, bar3) {
        let down = pick(
            counters_down(e, bar1, bar2, bar3),
            Label::BearishCounterattack,
            Label::Any,
        );
        Pair {
            v1: Label::Met,
            v2: pick(
                counters_up(e, bar1, bar2, bar3),
                Label::BullishCounterattack,
                down,
            ),
        }
    } else {
        pair_b()
    }
}

// The recognisers of the two newest bars: 2, 3, 9 and 10. b1 is the judged bar, b2 the one before.
// All is proved, nothing is assumed, and no public function has a `requires`: each contract is an equation with a definition of specs/,
// for every input.
// Bars come one by one, newest first, as the definitions name them: an array of them would put numbers in place of names.
#![tactic(auto)]

ghost use Rattle.std.specs.Prelude.{◌≡◌};
ghost use Rattle.measures.specs.declared.folds.Column.TheVariants.{Close};
ghost use Rattle.measures.specs.Bar.{bars_of};
ghost use Rattle.measures.specs.Fold.{column_of, highest_of};
ghost use Rattle.two_bar_rules.specs.TwoBarRule.{ten_closes, covers_of, wu_yun_gai_ding, comes_back, ci_tou, holds_falling, holds_rising, yun_xian, flat_of, ping_tou};

use measures::{Bar, Column};
use rule_types::label::{Label, Pair, pair_b, pick};

// 2: wu_yun_gai_ding

// Few bars open above the high before, so that most need no division.
#[tactic(auto, unfolding(crate::specs::TwoBarRule::covers_of))]
fn covers(z: u32, th: u32, b1: Bar, b2: Bar) -> bool
    ensures { result ≡ covers_of z th b1 b2 }
{
    b1.open > b2.high
        && ((b2.close - b2.open) / b2.open * 10000.0 > z as f64)
            & (b1.close < (b2.close + b2.open) * (th as f64 / 100.0))
}

// The ten closes are folded only where the two newest bars have the shape.
#[tactic(auto, unfolding(crate::specs::TwoBarRule::wu_yun_gai_ding))]
pub fn wu_yun_gai_ding(z: u32, th: u32, w: &[f64], b1: Bar, b2: Bar) -> Pair
    ensures { result ≡ wu_yun_gai_ding z th (highest_of (column_of Close (ten_closes (bars_of w.now)))) b1 b2 }
{
    let shape = covers(z, th, b1, b2);
    if shape {
        let top = measures::highest(measures::last_bars(w, 3, 10), Column::Close);
        Pair {
            v1: pick(b2.close >= top, Label::Met, Label::Other),
            v2: Label::Any,
        }
    } else {
        pair_b()
    }
}

// 3: ci_tou

// The newest bar opens below the low before and closes far enough up in that bar's body. Few bars open there, so that most need no
// division.
#[tactic(auto, unfolding(crate::specs::TwoBarRule::comes_back))]
fn comes_back(th: u32, b1: Bar, b2: Bar) -> bool
    ensures { result ≡ comes_back th b1 b2 }
{
    b1.open < b2.low && b1.close > b2.close + (b2.open - b2.close) * (th as f64 / 100.0)
}

#[tactic(auto, unfolding(crate::specs::TwoBarRule::ci_tou))]
pub fn ci_tou(z: u32, th: u32, b1: Bar, b2: Bar) -> Pair
    ensures { result ≡ ci_tou z th b1 b2 }
{
    let back = comes_back(th, b1, b2);
    if back {
        let fell = (b2.close < b2.open) & (1.0 - b2.close / b2.open > z as f64 / 10000.0);
        Pair {
            v1: pick(fell, Label::Met, Label::Other),
            v2: Label::Any,
        }
    } else {
        pair_b()
    }
}

// 9: yun_xian

// The two are mirrors, with each comparison turned round: one function of both, told which, would be no plainer.
fn holds_falling(b1: Bar, b2: Bar) -> bool
    ensures { result ≡ holds_falling b1 b2 }
{
    (b2.close > b1.close) & (b1.close > b2.open) & (b2.close > b1.open) & (b1.open > b2.open)
}

fn holds_rising(b1: Bar, b2: Bar) -> bool
    ensures { result ≡ holds_rising b1 b2 }
{
    (b2.close < b1.close) & (b1.close < b2.open) & (b2.close < b1.open) & (b1.open < b2.open)
}

#[tactic(auto, unfolding(crate::specs::TwoBarRule::yun_xian))]
pub fn yun_xian(b1: Bar, b2: Bar) -> Pair
    ensures { result ≡ yun_xian b1 b2 }
{
    let held = (measures::body(b2) > measures::long_shadow(b2))
        & (measures::body(b1) < measures::long_shadow(b1));
    let falling = pick(held & holds_falling(b1, b2), Label::Bearish, Label::Other);
    Pair {
        v1: pick(held & holds_rising(b1, b2), Label::Bullish, falling),
        v2: Label::Any,
    }
}

// 10: ping_tou

// Two prices lie less than th ten thousandths of the greater apart.
#[tactic(auto, unfolding(crate::specs::TwoBarRule::flat_of))]
fn is_flat(th: u32, x: f64, y: f64) -> bool
    ensures { result ≡ flat_of th x y }
{
    measures::abs(x - y) * 10000.0 / measures::max(x, y) < th as f64
}

#[tactic(auto, unfolding(crate::specs::TwoBarRule::ping_tou))]
pub fn ping_tou(th: u32, b1: Bar, b2: Bar) -> Pair
    ensures { result ≡ ping_tou th b1 b2 }
{
    let top = pick(is_flat(th, b2.high, b1.high), Label::Top, Label::Other);
    let standard = measures::body(b2) > measures::max(measures::body(b1), measures::upper(b1));
    Pair {
        v1: pick(is_flat(th, b2.low, b1.low), Label::Bottom, top),
        v2: pick(standard, Label::StandardBody, Label::Any),
    }
}

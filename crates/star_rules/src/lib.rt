// The recognisers of stars, which are bars with a small body or none: 6, 13 and 14. b1 is the judged bar, b2 the one before.
// All is proved, nothing is assumed, and no public function has a `requires`: each contract is an equation with a definition of specs/,
// for every input.
// Bars come one by one, newest first, as the definitions name them: an array of them would put numbers in place of names.
#![tactic(auto)]

ghost use Rattle.std.specs.Prelude.{◌≡◌, cond, ◌≤◌};
ghost use Rattle.measures.specs.Bar.{doji_of};
ghost use Rattle.star_rules.specs.StarRule.{star_bodies, morning_of, evening_of, xing_xian, doji_kind, northern_of, szx as szxOf, san_szx};

use measures::Bar;
use rule_types::label::{Label, Pair, pick};

// 6: xing_xian

// A middle body below the th-th part of the first, and the first below the sum of the others.
#[tactic(auto, unfolding(crate::specs::StarRule::star_bodies))]
fn has_star_bodies(th: u32, b1: Bar, b2: Bar, b3: Bar) -> bool
    ensures { result ≡ star_bodies th b1 b2 b3 }
{
    let x2 = measures::body(b2);
    let x3 = measures::body(b3);
    (x2 * (th as f64) < x3) & (x3 < x2 + measures::body(b1))
}

// The two are mirrors, with each comparison turned round and min for max: one function of both, told which, would be no plainer.
#[tactic(auto, unfolding(crate::specs::StarRule::morning_of))]
fn is_morning(th: u32, b1: Bar, b2: Bar, b3: Bar) -> bool
    ensures { result ≡ morning_of th b1 b2 b3 }
{
    (b3.high > b2.high)
        & (b2.high < b1.high)
        & (b3.low > b2.low)
        & (b2.low < b1.low)
        & (b3.close < b3.open)
        & has_star_bodies(th, b1, b2, b3)
        & (b1.close > b1.open)
        & (b1.open > measures::max(b2.close, b2.open))
}

#[tactic(auto, unfolding(crate::specs::StarRule::evening_of))]
fn is_evening(th: u32, b1: Bar, b2: Bar, b3: Bar) -> bool
    ensures { result ≡ evening_of th b1 b2 b3 }
{
    (b3.high < b2.high)
        & (b2.high > b1.high)
        & (b3.low < b2.low)
        & (b2.low > b1.low)
        & (b3.close > b3.open)
        & has_star_bodies(th, b1, b2, b3)
        & (b1.close < b1.open)
        & (b1.open < measures::min(b2.close, b2.open))
}

#[tactic(auto, unfolding(crate::specs::StarRule::xing_xian))]
pub fn xing_xian(th: u32, b1: Bar, b2: Bar, b3: Bar) -> Pair
    ensures { result ≡ xing_xian th b1 b2 b3 }
{
    let evening = pick(is_evening(th, b1, b2, b3), Label::EveningStar, Label::Other);
    Pair {
        v1: pick(is_morning(th, b1, b2, b3), Label::MorningStar, evening),
        v2: pick(b2.close == b2.open, Label::MiddleDoji, Label::Any),
    }
}

// 13: szx; its th, and that of 14, counts tenths, which the doji test divides.

#[tactic(auto, unfolding(crate::specs::StarRule::doji_kind))]
fn doji_kind(b1: Bar, b2: Bar) -> Label
    ensures { result ≡ doji_kind b1 b2 }
{
    let up = measures::upper(b1);
    let down = measures::lower(b1);
    let before = measures::body(b2);
    let long = pick(
        (down > before) & (up > before),
        Label::LongLeggedDoji,
        Label::CommonDoji,
    );
    let grave = pick(
        (down == 0.0) | (down < measures::body(b1)),
        Label::GravestoneDoji,
        long,
    );
    pick(down > up * 2.0, Label::DragonflyDoji, grave)
}

#[tactic(auto, unfolding(crate::specs::StarRule::northern_of))]
fn is_northern(b: Bar) -> bool
    ensures { result ≡ northern_of b }
{
    (b.close > b.open) & (measures::body(b) > (measures::upper(b) + measures::lower(b)) * 3.0)
}

#[tactic(auto, unfolding(crate::specs::StarRule::szx))]
pub fn szx(th: u32, b1: Bar, b2: Bar) -> Pair
    ensures { result ≡ szxOf th b1 b2 }
{
    let doji = measures::is_doji(b1, th as f64);
    Pair {
        v1: pick(doji, doji_kind(b1, b2), Label::Other),
        v2: pick(is_northern(b2), Label::Northern, Label::Any),
    }
}

// 14: san_szx

// 1 for a doji, else 0.
fn doji_one(th: f64, b: Bar) -> u32
    ensures { (result ≡ cond (doji_of th b) 1 0) × (result ≤ 1) }
{
    u32::from(measures::is_doji(b, th))
}

#[tactic(auto, unfolding(crate::specs::StarRule::san_szx, crate::specs::StarRule::doji_count))]
pub fn san_szx(th: u32, b1: Bar, b2: Bar, b3: Bar, b4: Bar, b5: Bar) -> Pair
    ensures { result ≡ san_szx th b1 b2 b3 b4 b5 }
{
    let x = th as f64;
    let found = doji_one(x, b5)
        + (doji_one(x, b4) + (doji_one(x, b3) + (doji_one(x, b2) + doji_one(x, b1))));
    Pair {
        v1: pick(found >= 3, Label::Met, Label::Other),
        v2: Label::Any,
    }
}

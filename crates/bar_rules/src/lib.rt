// The recognisers of three to six newest bars: 5, 11, 12 and 16. b1 is the judged bar, b2 the one before.
// All is proved, nothing is assumed, and no public function has a `requires`: each contract is an equation with a definition of specs/,
// for every input.
// Bars come one by one, newest first, as the definitions name them: an array of them would put numbers in place of names.
#![tactic(auto)]

ghost use Rattle.std.specs.Prelude.{◌≡◌, cond, ◌&&◌};
ghost use Rattle.measures.specs.Bar.{bars_of};
ghost use Rattle.rule_types.specs.Label.{pair_a};
ghost use Rattle.bar_rules.specs.BarRule.{change_of, san_fa_v20221115, two_crow, gate_shut, falling_of, short_shadows, opens_within, crow_pair, three_crow, alike_of, gap_up_of, gap_down_of, gap_yin_yang};

use measures::Bar;
use rule_types::counts::GATE_ABOVE;
use rule_types::label::{Label, Pair, pair_a, pick};

// 5: san_fa_v20221115

// The change of close from one bar to the next, in ten thousandths.
#[tactic(auto, unfolding(crate::specs::BarRule::change_of))]
fn change(older: Bar, newer: Bar) -> f64
    ensures { result ≡ change_of older newer }
{
    measures::abs((older.close - newer.close) / older.close) * 10000.0
}

#[tactic(auto, unfolding(crate::specs::BarRule::san_fa_v20221115))]
pub fn san_fa_v20221115(zdf: u32, b1: Bar, b2: Bar, b3: Bar, b4: Bar, b5: Bar, b6: Bar) -> Pair
    ensures { result ≡ san_fa_v20221115 zdf b1 b2 b3 b4 b5 b6 }
{
    let top = measures::max(measures::max(b2.high, b3.high), b4.high);
    let bottom = measures::min(measures::min(b2.low, b3.low), b4.low);
    let far = (change(b2, b1) >= zdf as f64) & (change(b6, b5) > zdf as f64) & (b5.high > top);
    let rises = (b5.close > b5.open)
        & (b1.close > b1.open)
        & (b1.close > b5.high)
        & (b1.close > top)
        & (b1.open > b2.close);
    let falls = (b5.close < b5.open)
        & (b1.close < b1.open)
        & (b1.close < b5.low)
        & (b1.close < bottom)
        & (b1.open < b2.close);
    Pair {
        v1: pick(far, Label::Met, Label::Other),
        v2: pick(
            rises,
            Label::RisingThreeMethods,
            pick(falls, Label::FallingThreeMethods, Label::Other),
        ),
    }
}

// 11: two_crow

#[tactic(auto, unfolding(crate::specs::BarRule::two_crow))]
pub fn two_crow(b1: Bar, b2: Bar, b3: Bar) -> Pair
    ensures { result ≡ two_crow b1 b2 b3 }
{
    let c1 = (b3.close > b3.open) & (measures::body(b3) > measures::long_shadow(b3));
    let c2 = (b2.open > b2.close) & (b2.close > b3.high);
    let c3 = (b1.close < b1.open) & (b1.close < b2.close);
    Pair {
        v1: pick(c1 & c2 & c3, Label::Bearish, Label::Other),
        v2: Label::Any,
    }
}

// 12: three_crow

// The gate: len is above 23, and b3 stays below the high quarter of the 20 bars that end third from the newest.
#[tactic(auto, unfolding(crate::specs::BarRule::gate_shut))]
fn is_gate_shut(len: usize, gate: &[f64], b3: Bar) -> bool
    ensures { result ≡ gate_shut len (bars_of gate.now) b3 }
{
    let e = measures::extremes_of(gate);
    (len > GATE_ABOVE) & (b3.high < e.highest - 0.25 * (e.highest - e.lowest))
}

fn are_falling(b1: Bar, b2: Bar, b3: Bar) -> bool
    ensures { result ≡ falling_of b1 b2 b3 }
{
    (b1.close < b1.open)
        & (b2.close < b2.open)
        & (b3.open > b3.close)
        & (b3.close > b2.close)
        & (b2.close > b1.close)
        & (b3.high > b2.high)
        & (b2.high > b1.high)
}

fn has_short_shadows(b: Bar) -> bool
    ensures { result ≡ short_shadows b }
{
    (b.close - b.low < 0.5 * (b.open - b.close)) & (b.high - b.open < b.open - b.close)
}

fn opens_within(newer: Bar, older: Bar) -> bool
    ensures { result ≡ opens_within newer older }
{
    (older.close <= newer.open) & (newer.open <= older.open)
}

#[tactic(auto, unfolding(crate::specs::BarRule::crow_pair))]
fn crow_pair(b1: Bar, b2: Bar, b3: Bar) -> Pair
    ensures { result ≡ crow_pair b1 b2 b3 }
{
    let newer = opens_within(b1, b2);
    let older = opens_within(b2, b3);
    let gap = b1.open < b2.close;
    let half = pick(
        (newer & (b3.open < b3.close)) | (older & gap),
        Pair {
            v1: Label::Met,
            v2: Label::HalfStrong,
        },
        pair_a(),
    );
    let strong = pick(
        gap & (b2.open < b3.close),
        Pair {
            v1: Label::Met,
            v2: Label::Strong,
        },
        half,
    );
    pick(
        newer & older,
        Pair {
            v1: Label::Met,
            v2: Label::Regular,
        },
        strong,
    )
}

fn have_short_shadows(b1: Bar, b2: Bar, b3: Bar) -> bool
    ensures { result ≡ (short_shadows b1 && short_shadows b2 && short_shadows b3) }
{
    has_short_shadows(b1) & has_short_shadows(b2) & has_short_shadows(b3)
}

// The shape is tried before the gate, which costs a loop, and its first part before the shadows.
#[tactic(auto, unfolding(crate::specs::BarRule::three_crow))]
pub fn three_crow(len: usize, gate: &[f64], b1: Bar, b2: Bar, b3: Bar) -> Pair
    ensures { result ≡ cond (gate_shut len (bars_of gate.now) b3) pair_a (three_crow b1 b2 b3) }
{
    if are_falling(b1, b2, b3) && have_short_shadows(b1, b2, b3) {
        pick(is_gate_shut(len, gate, b3), pair_a(), crow_pair(b1, b2, b3))
    } else {
        pair_a()
    }
}

// 16: gap_yin_yang

// Whether a gap is there and the two newest bodies are alike, which costs two divisions.
fn is_alike(gap: bool, b1: Bar, b2: Bar) -> bool
    ensures { result ≡ (gap && alike_of b1 b2) }
{
    gap && measures::pair_variance(measures::body(b1), measures::body(b2)) < 0.2
}

// The two are mirrors, with each comparison turned round and min for max: one function of both, told which, would be no plainer.
#[tactic(auto, unfolding(crate::specs::BarRule::gap_up_of))]
fn is_gap_up(b1: Bar, b2: Bar, b3: Bar) -> bool
    ensures { result ≡ gap_up_of b1 b2 b3 }
{
    let gap = (measures::min(b1.low, b2.low) > b3.high)
        & (b2.close > b2.open)
        & (b1.close < b1.open);
    is_alike(gap, b1, b2)
}

#[tactic(auto, unfolding(crate::specs::BarRule::gap_down_of))]
fn is_gap_down(b1: Bar, b2: Bar, b3: Bar) -> bool
    ensures { result ≡ gap_down_of b1 b2 b3 }
{
    let gap = (measures::max(b1.high, b2.high) < b3.low)
        & (b2.close < b2.open)
        & (b1.close > b1.open);
    is_alike(gap, b1, b2)
}

#[tactic(auto, unfolding(crate::specs::BarRule::gap_yin_yang))]
pub fn gap_yin_yang(b1: Bar, b2: Bar, b3: Bar) -> Pair
    ensures { result ≡ gap_yin_yang b1 b2 b3 }
{
    let down = pick(is_gap_down(b1, b2, b3), Label::GapDown, Label::Other);
    Pair {
        v1: pick(is_gap_up(b1, b2, b3), Label::GapUp, down),
        v2: Label::Any,
    }
}

// The table of the eighteen: the choice of a recogniser by its number.
ghost use Rattle.std.specs.Prelude.{◌≡◌, cond, ltb, leb, ◌<◌};
ghost use Rattle.measures.specs.Bar.{bars_of};
ghost use Rattle.rule_types.specs.Number.{recognisers, reach_bars};
ghost use Rattle.rule_table.specs.Table.{table_row, rule_of, judge_of, pair_at, pairs_at};
ghost use Rattle.rule_table.specs.TableSteps.{rules_of, pairs_of};

use measures::back;
use quarter_rules::{quarter_extremes, quarter_in, quarter_of};
use rule_types::counts::{GATE_END, QUARTER_BARS, REACH_BARS, RECOGNISERS};
use rule_types::label::{Pair, pair_a, pair_b, pick};
use thresholds::Thresholds;

// A recogniser's row: the p from which its rule holds, and whether its short pair is B.
#[derive(Clone, Copy)]
struct TableRow {
    from: usize,
    short_is_b: bool,
}

// The rows in the order of the numbers. Not a constant: that would be made anew wherever a row of it is read.
static ROWS: [TableRow; RECOGNISERS] = [
    TableRow {
        from: 1,
        short_is_b: false,
    },
    TableRow {
        from: 2,
        short_is_b: false,
    },
    TableRow {
        from: 12,
        short_is_b: true,
    },
    TableRow {
        from: 16,
        short_is_b: true,
    },
    TableRow {
        from: 5,
        short_is_b: false,
    },
    TableRow {
        from: 6,
        short_is_b: false,
    },
    TableRow {
        from: 3,
        short_is_b: true,
    },
    TableRow {
        from: 2,
        short_is_b: false,
    },
    TableRow {
        from: 1,
        short_is_b: false,
    },
    TableRow {
        from: 2,
        short_is_b: true,
    },
    TableRow {
        from: 2,
        short_is_b: true,
    },
    TableRow {
        from: 3,
        short_is_b: true,
    },
    TableRow {
        from: 3,
        short_is_b: false,
    },
    TableRow {
        from: 11,
        short_is_b: false,
    },
    TableRow {
        from: 8,
        short_is_b: true,
    },
    TableRow {
        from: 21,
        short_is_b: true,
    },
    TableRow {
        from: 7,
        short_is_b: true,
    },
    TableRow {
        from: 5,
        short_is_b: false,
    },
];

// The short pair of recogniser k below the p given, else the rule's.
fn row(k: usize, p: usize, full: Pair) -> Pair
    requires { k < recognisers }
    ensures { result ≡ cond (ltb p (table_row k).from) (table_row k).short full }
{
    let r = ROWS[k];
    let short = pick(r.short_is_b, pair_b(), pair_a());
    pick(p < r.from, short, full)
}

// The rule of recogniser k over the window w that ends with the judged bar; deep: 22 bars or more lie up to it. The gate of 12 reads len
// and a window of its own. Past the table the pair is A. k is a number and no enum: the C interface takes any u32, and each has its pair.
#[tactic(auto, unfolding(crate::specs::Table::table_row, crate::specs::Table::rows, crate::specs::Table::seen_of, quarter_rules::specs::QuarterRule::quarter_of))]
fn rule(k: u32, t: Thresholds, len: usize, deep: bool, w: &[f64], gate: &[f64]) -> Pair
    ensures { result ≡ rule_of k t len deep (bars_of w.now) (bars_of gate.now) }
{
    let b1 = back(w, 1);
    let b2 = back(w, 2);
    let b3 = back(w, 3);
    match k {
        0 => quarter_rules::san_xing_xian(t.th0, quarter_of(deep, w), b1),
        1 => quarter_rules::ten_mo(quarter_of(deep, w), b1, b2),
        2 => two_bar_rules::wu_yun_gai_ding(t.z2, t.th2, w, b1, b2),
        3 => two_bar_rules::ci_tou(t.z3, t.th3, b1, b2),
        4 => growing_rules::san_fa_v20221118(w),
        5 => { bar_rules::san_fa_v20221115(t.zdf5, b1, b2, b3, back(w, 4), back(w, 5), back(w, 6)) }
        6 => star_rules::xing_xian(t.th6, b1, b2, b3),
        7 => quarter_rules::fen_shou_xian(t.zdf7, quarter_of(deep, w), b1, b2),
        8 => quarter_rules::zhu_huo_xian(t.th8, t.zf8, quarter_of(deep, w), b1),
        9 => two_bar_rules::yun_xian(b1, b2),
        10 => two_bar_rules::ping_tou(t.th10, b1, b2),
        11 => bar_rules::two_crow(b1, b2, b3),
        12 => bar_rules::three_crow(len, gate, b1, b2, b3),
        13 => star_rules::szx(t.th13, b1, b2),
        14 => star_rules::san_szx(t.th14, b1, b2, b3, back(w, 4), back(w, 5)),
        15 => quarter_rules::fan_ji_xian(quarter_extremes(w), b3, b2, b1),
        16 => bar_rules::gap_yin_yang(b1, b2, b3),
        17 => growing_rules::ta_xing(w),
        _ => pair_a(),
    }
}

// Recogniser k over the window w that ends with the judged bar, of which p bars of the history lie up to it.
pub fn judge(k: u32, t: Thresholds, len: usize, p: usize, w: &[f64], gate: &[f64]) -> Pair
    ensures { result ≡ judge_of k t len p (bars_of w.now) (bars_of gate.now) }
{
    let full = rule(k, t, len, p >= REACH_BARS, w, gate);
    let i = k as usize;
    if i < RECOGNISERS {
        row(i, p, full)
    } else {
        full
    }
}

// The pair of recogniser k at an offset of the lent bars, which are the newest of a history of len bars.
pub fn pair_at(k: u32, t: Thresholds, len: usize, prices: &[f64], di: usize) -> Pair
    ensures { result ≡ pair_at k t len (bars_of prices.now) di }
{
    let p = measures::up_to(len, di);
    let w = measures::last_bars(prices, di, REACH_BARS);
    let gate = measures::last_bars(prices, GATE_END, QUARTER_BARS);
    judge(k, t, len, p, w, gate)
}

// Every rule over the same windows. What several rules need is made once: the newest bars, the extremes of the quarter, and the search of
// 4 and 17. The bars have a line each: an array of them would be taken apart at once.
fn rules(t: Thresholds, len: usize, deep: bool, w: &[f64], gate: &[f64]) -> [Pair; RECOGNISERS]
    ensures { result ≡ rules_of t len deep (bars_of w.now) (bars_of gate.now) }
{
    let b1 = back(w, 1);
    let b2 = back(w, 2);
    let b3 = back(w, 3);
    let b4 = back(w, 4);
    let b5 = back(w, 5);
    let b6 = back(w, 6);
    let e = quarter_extremes(w);
    let q = quarter_in(deep, e, b1);
    let g = growing_rules::growing_pairs(w);
    let methods = g.methods;
    let tower = g.tower;
    [
        quarter_rules::san_xing_xian(t.th0, q, b1),
        quarter_rules::ten_mo(q, b1, b2),
        two_bar_rules::wu_yun_gai_ding(t.z2, t.th2, w, b1, b2),
        two_bar_rules::ci_tou(t.z3, t.th3, b1, b2),
        methods,
        bar_rules::san_fa_v20221115(t.zdf5, b1, b2, b3, b4, b5, b6),
        star_rules::xing_xian(t.th6, b1, b2, b3),
        quarter_rules::fen_shou_xian(t.zdf7, q, b1, b2),
        quarter_rules::zhu_huo_xian(t.th8, t.zf8, q, b1),
        two_bar_rules::yun_xian(b1, b2),
        two_bar_rules::ping_tou(t.th10, b1, b2),
        bar_rules::two_crow(b1, b2, b3),
        bar_rules::three_crow(len, gate, b1, b2, b3),
        star_rules::szx(t.th13, b1, b2),
        star_rules::san_szx(t.th14, b1, b2, b3, b4, b5),
        quarter_rules::fan_ji_xian(e, b3, b2, b1),
        bar_rules::gap_yin_yang(b1, b2, b3),
        tower,
    ]
}

// The first row that may be short of its p: from 22 bars on none is.
fn first_short(p: usize) -> usize
    ensures { result ≡ cond (leb reach_bars p) recognisers 0 }
{
    if REACH_BARS <= p { RECOGNISERS } else { 0 }
}

// Every recogniser over the same windows: the pairs that may be short take the rules' places.
fn pairs(t: Thresholds, len: usize, p: usize, w: &[f64], gate: &[f64]) -> [Pair; RECOGNISERS]
    ensures { result ≡ pairs_of t len p (bars_of w.now) (bars_of gate.now) }
{
    let mut pairs = rules(t, len, p >= REACH_BARS, w, gate);
    for k in first_short(p)..RECOGNISERS {
        pairs[k] = row(k, p, pairs[k]);
    }
    pairs
}

// The pairs of every recogniser at the newest of the lent bars, which are the newest of a history of len bars.
pub fn newest_pairs(t: Thresholds, len: usize, prices: &[f64]) -> [Pair; RECOGNISERS]
    ensures { result ≡ pairs_at t len (bars_of prices.now) 1 }
{
    let p = measures::up_to(len, 1);
    let w = measures::last_bars(prices, 1, REACH_BARS);
    let gate = measures::last_bars(prices, GATE_END, QUARTER_BARS);
    pairs(t, len, p, w, gate)
}

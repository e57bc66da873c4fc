// The recognisers that try growing windows: 4 and 17.
// All is proved, nothing is assumed, and no public function has a `requires`: each contract is an equation with a definition of specs/,
// for every input.
#![tactic(auto)]

ghost use Rattle.std.specs.Prelude.{◌≡◌, ◌+◌, ◌-◌, ◌≤◌, ◌<◌, Bool, true, false, List, []};
ghost use Rattle.measures.specs.Bar.{Bar, bars_of};
ghost use Rattle.measures.specs.Window.{window_of, back_of};
ghost use Rattle.growing_rules.specs.GrowingRule.{size_label, first_match, first_of, last_of, inner_of, three_methods, san_fa_v20221118, ends_lead, tower as towerOf, ta_xing, growing_of};
ghost use Rattle.middles.specs.declared.Middle.{Middle};
ghost use Rattle.rule_types.specs.declared.label.Label.{Label, TheVariants.Other};
ghost use Rattle.middles.specs.MiddleSteps.{middle_of, middle_at};
ghost use Rattle.growing_rules.specs.SearchSteps.{two_of, leaders_of, body_joined, may_rise, may_fall, may_be_top, may_be_bottom, may_be_methods, may_be_tower, beyond as beyondOf, no_match, found_of, searched_of};

use measures::{Bar, Column};
use middles::{Middle, first_middle, grow};
use rule_types::label::{Label, Pair, pair_a, pick};

// What a window is tried for. The test of its ends and of its middle's extremes comes first, and decides for most windows.
trait Shape {
    ghost may_be: { Bar → Bar → Middle → Bool };

    ghost label_of: { List Bar → Label };

    fn may_be(first: Bar, last: Bar, m: Middle) -> bool
        ensures { result ≡ may_be first last m };

    // The label of a window that has passed the test.
    fn check(s: &[f64]) -> Label
        requires { may_be (first_of (bars_of s.now)) (last_of (bars_of s.now)) (middle_of (inner_of (bars_of s.now))) ≡ true }
        ensures { result ≡ label_of (bars_of s.now) };
}

// 4 and 17.
struct ThreeMethods;

struct Tower;

const SIZES: [Label; 5] = [
    Label::Bars5,
    Label::Bars6,
    Label::Bars7,
    Label::Bars8,
    Label::Bars9,
];

// The label of a window of n bars, 5 to 9. A plain number, since the search counts with it: a type of its own would be no plainer.
fn size_label(n: usize) -> Label
    requires { (5 ≤ n) × (n < 10) }
    ensures { result ≡ size_label n }
{
    SIZES[n - 5]
}

// The first and the last bar of a window, and those between them.
fn first_bar(s: &[f64]) -> Bar
    ensures { result ≡ first_of (bars_of s.now) }
{
    measures::back(s, measures::count(s))
}

fn last_bar(s: &[f64]) -> Bar
    ensures { result ≡ last_of (bars_of s.now) }
{
    measures::back(s, 1)
}

fn inner(s: &[f64]) -> &[f64]
    ensures { bars_of result.now ≡ inner_of (bars_of s.now) }
{
    measures::last_bars(s, 2, measures::count(s).saturating_sub(2))
}

// 4: san_fa_v20221118. What the ends and the middle's extremes answer is tested before the closes are folded. Here and for 17 a side and its
// mirror are written out, as the rule has them: one function over comparisons that are passed in would be no plainer.

fn may_rise(first: Bar, last: Bar, m: Middle) -> bool
    ensures { result ≡ may_rise first last m }
{
    (last.close > last.open)
        & (first.close > first.open)
        & (last.close > first.high)
        & (last.close > m.highest)
        & (m.highest > first.high)
        & (m.lowest > first.open)
}

fn may_fall(first: Bar, last: Bar, m: Middle) -> bool
    ensures { result ≡ may_fall first last m }
{
    (last.close < last.open)
        & (first.close < first.open)
        & (last.close < first.low)
        & (first.low > m.lowest)
        & (m.lowest > last.close)
        & (m.highest < first.open)
}

impl Shape for ThreeMethods {
    ghost may_be = { may_be_methods };

    ghost label_of = { three_methods };

    // The newest bar's side decides which of the two it can be: half of the tests, and the same for all windows.
    fn may_be(first: Bar, last: Bar, m: Middle) -> bool {
        if last.close > last.open {
            may_rise(first, last, m)
        } else {
            may_fall(first, last, m)
        }
    }

    fn check(s: &[f64]) -> Label {
        let first = first_bar(s);
        let last = last_bar(s);
        if last.close > last.open {
            let below = first.close > measures::highest(inner(s), Column::Close);
            pick(below, Label::RisingThreeMethods, Label::Other)
        } else {
            let above = first.close < measures::lowest(inner(s), Column::Close);
            pick(above, Label::FallingThreeMethods, Label::Other)
        }
    }
}

// 17: ta_xing. What the ends and the middle's extremes answer is tested before the bodies are scanned, which costs the most.

// The two greatest bodies of a window, NaN where there is none.
#[derive(Clone, Copy)]
struct Leaders {
    pub first: f64,
    pub second: f64,
}

fn no_leaders() -> Leaders
    ensures { result ≡ two_of [] }
{
    let nan = measures::price::not_a_number();
    Leaders {
        first: nan,
        second: nan,
    }
}

// An older bar's body joins.
fn join(l: Leaders, x: f64) -> Leaders
    ensures { result ≡ body_joined x l }
{
    let behind = x < l.first;
    Leaders {
        first: measures::pick(behind, l.first, x),
        second: measures::pick(behind, measures::pick(x < l.second, l.second, x), l.first),
    }
}

// One scan of the bodies, from the newest bar; none lead where a body is NaN.
fn leaders_of(s: &[f64]) -> Option<Leaders>
    ensures { result ≡ leaders_of (bars_of s.now) }
{
    let mut l = no_leaders();
    for i in 0..measures::count(s) {
        let x = measures::body(measures::back(s, i + 1));
        if measures::is_nan(x) {
            return None;
        }
        l = join(l, x);
    }
    Some(l)
}

// Whether the smaller of the end bodies is at least the last but one of the bodies in non-falling order.
fn do_ends_lead(s: &[f64]) -> bool
    ensures { result ≡ ends_lead (bars_of s.now) }
{
    let first = measures::body(first_bar(s));
    let last = measures::body(last_bar(s));
    match leaders_of(s) {
        Some(l) => l.second <= measures::min(first, last),
        None => false,
    }
}

fn may_be_top(first: Bar, last: Bar, m: Middle) -> bool
    ensures { result ≡ may_be_top first last m }
{
    (first.close > first.open)
        & (last.close < last.open)
        & m.lows
        & (m.lowest > first.open)
        & (m.lowest > last.close)
}

fn may_be_bottom(first: Bar, last: Bar, m: Middle) -> bool
    ensures { result ≡ may_be_bottom first last m }
{
    (first.close < first.open)
        & (last.close > last.open)
        & m.highs
        & (m.highest < first.open)
        & (m.highest < last.close)
}

impl Shape for Tower {
    ghost may_be = { may_be_tower };

    ghost label_of = { towerOf };

    fn may_be(first: Bar, last: Bar, m: Middle) -> bool {
        if last.close > last.open {
            may_be_bottom(first, last, m)
        } else {
            may_be_top(first, last, m)
        }
    }

    fn check(s: &[f64]) -> Label {
        if do_ends_lead(s) {
            let last = last_bar(s);
            if last.close > last.open {
                let level = measures::variance(inner(s), Column::Low) < 0.5;
                pick(level, Label::Bottom, Label::Other)
            } else {
                let level = measures::variance(inner(s), Column::High) < 0.5;
                pick(level, Label::Top, Label::Other)
            }
        } else {
            Label::Other
        }
    }
}

// Both shapes

// What is found of a shape with the window of n bars, after the smaller ones: few windows come so far.
fn find_at<S: Shape>(found: Pair, w: &[f64], n: usize) -> Pair
    requires { (5 ≤ n) × (n < 10) × (found ≡ first_match S.label_of (n - 5) 5 (bars_of w.now)) × (S.may_be (back_of (bars_of w.now) n) (back_of (bars_of w.now) 1) (middle_at (bars_of w.now) n) ≡ true) }
    ensures { result ≡ first_match S.label_of (n + 1 - 5) 5 (bars_of w.now) }
{
    if let Label::Other = found.v1 {
        match S::check(measures::last_bars(w, 1, n)) {
            Label::Other => found,
            label => Pair {
                v1: label,
                v2: size_label(n),
            },
        }
    } else {
        found
    }
}

// Whether the newest bar's close is still beyond the middle: where it is not, no longer window matches.
fn is_beyond(last: Bar, m: Middle) -> bool
    ensures { result ≡ beyondOf last m }
{
    let up = (last.close > last.open) & (last.close > m.highest);
    let down = (last.close < last.open) & (last.close < m.lowest);
    up | down
}

// What 4 and 17 have over the same window: their pairs, and the sizes from which on each tries no more, 0 for one that is not asked for.
#[derive(Clone, Copy)]
pub struct Both<T> {
    pub methods: T,
    pub tower: T,
}

fn no_match() -> Both<Pair>
    ensures { result ≡ no_match }
{
    let none = pair_a();
    Both {
        methods: none,
        tower: none,
    }
}

// 4 tries windows of 5 to 8 bars, 17 of 5 to 9.
const METHODS_END: usize = 9;

const TOWER_END: usize = 10;

// What is found with the window of n bars, after the smaller ones. The tests of both recognisers are made before either goes on: a call
// between them would cost the values that both read.
fn found_with<S: Shape>(found: Pair, end: usize, w: &[f64], n: usize, may: bool) -> Pair
    requires { (5 ≤ n) × (n < 10) × (found ≡ found_of S.label_of end (bars_of w.now) n) × (may ≡ S.may_be (back_of (bars_of w.now) n) (back_of (bars_of w.now) 1) (middle_at (bars_of w.now) n)) × (may ≡ false → S.label_of (window_of (bars_of w.now) 1 n) ≡ Other) }
    ensures { result ≡ found_of S.label_of end (bars_of w.now) (n + 1) }
{
    if (n < end) & may {
        find_at::<S>(found, w, n)
    } else {
        found
    }
}

fn try_window(ends: Both<usize>, found: Both<Pair>, w: &[f64], n: usize, m: Middle) -> Both<Pair>
    requires { (5 ≤ n) × (n < 10) × (found ≡ searched_of ends (bars_of w.now) n) × (m ≡ middle_at (bars_of w.now) n) }
    ensures { result ≡ searched_of ends (bars_of w.now) (n + 1) }
{
    let first = measures::back(w, n);
    let last = measures::back(w, 1);
    let may_be_four = ThreeMethods::may_be(first, last, m);
    let may_be_seventeen = Tower::may_be(first, last, m);
    let methods = found_with::<ThreeMethods>(found.methods, ends.methods, w, n, may_be_four);
    let tower = found_with::<Tower>(found.tower, ends.tower, w, n, may_be_seventeen);
    Both { methods, tower }
}

// The search, for both recognisers at once, from the first window's middle: each bar enters the extremes once. Its caller has asked that
// middle whether the close is beyond it, and most are not.
fn search(ends: Both<usize>, w: &[f64], first: Middle) -> Both<Pair>
    requires { first ≡ middle_at (bars_of w.now) 5 }
    ensures { result ≡ searched_of ends (bars_of w.now) 10 }
{
    let last = measures::back(w, 1);
    let mut m = first;
    let mut found = no_match();
    for n in 5..TOWER_END {
        found = try_window(ends, found, w, n, m);
        m = grow(m, w, n);
        if !is_beyond(last, m) {
            return found;
        }
    }
    found
}

// What is found of both up to these sizes. The question before the search stands in each caller, who pays no call for it.
#[inline(always)]
fn found_in(ends: Both<usize>, w: &[f64]) -> Both<Pair>
    ensures { result ≡ searched_of ends (bars_of w.now) 10 }
{
    let m = first_middle(w);
    if is_beyond(measures::back(w, 1), m) {
        search(ends, w, m)
    } else {
        no_match()
    }
}

pub fn san_fa_v20221118(w: &[f64]) -> Pair
    ensures { result ≡ san_fa_v20221118 (bars_of w.now) }
{
    let ends = Both {
        methods: METHODS_END,
        tower: 0,
    };
    found_in(ends, w).methods
}

pub fn ta_xing(w: &[f64]) -> Pair
    ensures { result ≡ ta_xing (bars_of w.now) }
{
    let ends = Both {
        methods: 0,
        tower: TOWER_END,
    };
    found_in(ends, w).tower
}

// Both at once.
pub fn growing_pairs(w: &[f64]) -> Both<Pair>
    ensures { result ≡ growing_of (bars_of w.now) }
{
    let ends = Both {
        methods: METHODS_END,
        tower: TOWER_END,
    };
    found_in(ends, w)
}

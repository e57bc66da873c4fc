// The middle of a window, the bars between its first and its last: their extremes run along as the window grows. All is proved, nothing is
// assumed, and no public function has a `requires`: each contract is an equation with a definition of specs/, for every input.
#![tactic(auto)]

ghost use Rattle.std.specs.Prelude.{◌≡◌, List, [], ◌∷◌, ◌++◌};
ghost use Rattle.measures.specs.Bar.{Bar, bars_of};
ghost use Rattle.middles.specs.MiddleSteps.{middle_of, entered, grown_by, middle_at};

use measures::Bar;

// The highest high and the lowest low, which pass NaN over, and whether no high, no low is NaN. Flags and no Option: some rules read the
// extremes whatever the flags say.
#[derive(Clone, Copy)]
pub struct Middle {
    pub highest: f64,
    pub lowest: f64,
    pub highs: bool,
    pub lows: bool,
}

fn no_middle() -> Middle
    ensures { result ≡ middle_of [] }
{
    Middle {
        highest: measures::price::minus_infinity(),
        lowest: measures::price::plus_infinity(),
        highs: true,
        lows: true,
    }
}

// An older bar enters. Its prices are the first arguments: so the extremes are those of the folds from the oldest bar.
fn enter(m: Middle, b: Bar) -> Middle
    ensures { result ≡ entered b m }
{
    Middle {
        highest: measures::max(b.high, m.highest),
        lowest: measures::min(b.low, m.lowest),
        highs: !measures::is_nan(b.high) & m.highs,
        lows: !measures::is_nan(b.low) & m.lows,
    }
}

// The middle of the window of one bar more than n, whose first bar enters; where there is no older bar, the window stays as it is.
pub fn grow(m: Middle, w: &[f64], n: usize) -> Middle
    ensures { result ≡ grown_by (bars_of w.now) n m }
{
    if n < measures::count(w) {
        enter(m, measures::back(w, n))
    } else {
        m
    }
}

// A newer bar enters the middle of some bars: no extreme is ever NaN, so that one comparison a price is enough.
fn enter_newer(m: Middle, b: Bar) -> Middle
    ensures { (mid : List Bar) → m ≡ middle_of mid → result ≡ middle_of (mid ++ (b ∷ [])) }
{
    Middle {
        highest: measures::pick(b.high > m.highest, b.high, m.highest),
        lowest: measures::pick(b.low < m.lowest, b.low, m.lowest),
        highs: m.highs & !measures::is_nan(b.high),
        lows: m.lows & !measures::is_nan(b.low),
    }
}

// The middle of the first window that is tried. Of five bars or more those between the ends enter from the oldest, each by fewer comparisons.
pub fn first_middle(w: &[f64]) -> Middle
    ensures { result ≡ middle_at (bars_of w.now) 5 }
{
    if measures::count(w) < 5 {
        let none = no_middle();
        let one = grow(none, w, 2);
        grow(one, w, 3)
    } else {
        let one = enter_newer(no_middle(), measures::back(w, 4));
        let two = enter_newer(one, measures::back(w, 3));
        enter_newer(two, measures::back(w, 2))
    }
}

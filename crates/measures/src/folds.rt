// Measures of a window of bars: folds from its oldest bar, the variance, the quarter.
ghost use Rattle.std.specs.Prelude.{◌≡◌, [], ◌∷◌, Float};
ghost use Rattle.std.specs.Iterator.{ActsAsOnTwo};
ghost use mathlib.Core.List.{foldl};
ghost use Rattle.prices.specs.Bar.{bars_of};
ghost use Rattle.measures.specs.Fold.{price_of, column_of, highest_of, lowest_of, size_of, mean_of, variance_of, extremes_of, quarter_gap, low_side, high_side};

use crate::runs::{bar_from, bars_in};
use prices::bars::Bar;
use prices::price;
use windows::count;

// A price of a bar. An enum and no closure, since definitions that crates above cite (column_of) name the prices by it.
#[derive(Clone, Copy)]
pub enum Column {
    Open,
    Close,
    High,
    Low,
}

// The price of a bar in a column.
fn price_in(b: Bar, column: Column) -> f64
    ensures { result ≡ price_of column b }
{
    match column {
        Column::Open => b.open,
        Column::Close => b.close,
        Column::High => b.high,
        Column::Low => b.low,
    }
}

// A fold over a column of a run, from the oldest bar.
fn fold_column<F: Fn(f64, f64) -> f64>(prices: &[f64], c: Column, start: f64, f: F) -> f64
    requires { F.IsAlwaysCallable f }
    ensures { (h : Float → Float → Float) → ActsAsOnTwo F.FnMut f h → result ≡ foldl h start (column_of c (bars_of prices.now)) }
{
    bars_in(prices)
        .iter()
        .map(|b| price_in(bar_from(b), c))
        .fold(start, f)
}

// The highest price of a column of a run.
pub fn highest(prices: &[f64], c: Column) -> f64
    ensures { result ≡ highest_of (column_of c (bars_of prices.now)) }
{
    fold_column(prices, c, price::minus_infinity(), price::max)
}

// The lowest price of a column of a run.
pub fn lowest(prices: &[f64], c: Column) -> f64
    ensures { result ≡ lowest_of (column_of c (bars_of prices.now)) }
{
    fold_column(prices, c, price::plus_infinity(), price::min)
}

// How many bars a run has, as a float.
fn size(prices: &[f64], c: Column) -> f64
    ensures { result ≡ size_of (column_of c (bars_of prices.now)) }
{
    std::num::nearest_u64_to_f64(count(prices) as u64)
}

fn mean(prices: &[f64], c: Column) -> f64
    ensures { result ≡ mean_of (column_of c (bars_of prices.now)) }
{
    fold_column(prices, c, 0.0, |x, y| x + y) / size(prices, c)
}

// The mean of squares about the mean of a column; NaN over no bar.
pub fn variance(prices: &[f64], c: Column) -> f64
    ensures { result ≡ variance_of (column_of c (bars_of prices.now)) }
{
    let mean = mean(prices, c);
    fold_column(prices, c, 0.0, |x, y| x + price::square(y - mean)) / size(prices, c)
}

// The variance of two values.
pub fn pair_variance(x: f64, y: f64) -> f64
    ensures { result ≡ variance_of (x ∷ y ∷ []) }
{
    let mean = (0.0 + x + y) / 2.0;
    (0.0 + price::square(x - mean) + price::square(y - mean)) / 2.0
}

// The highest high and the lowest low of a run of bars.
#[derive(Clone, Copy)]
pub struct Extremes {
    pub highest: f64,
    pub lowest: f64,
}

// The extremes of a run. Neither is ever NaN, so that one comparison a price is enough.
pub fn extremes_of(prices: &[f64]) -> Extremes
    ensures { result ≡ extremes_of (bars_of prices.now) }
{
    let mut top = price::minus_infinity();
    let mut bottom = price::plus_infinity();
    for four in bars_in(prices) {
        let b = bar_from(four);
        top = price::pick(b.high > top, b.high, top);
        bottom = price::pick(b.low < bottom, b.low, bottom);
    }
    Extremes {
        highest: top,
        lowest: bottom,
    }
}

impl Extremes {
    // A quarter of the gap between them.
    fn quarter(self) -> f64
        ensures { result ≡ quarter_gap self }
    {
        0.25 * (self.highest - self.lowest)
    }
}

// Whether a bar reaches into the lowest quarter between the extremes. The two sides stay apart: one function over a side would be no plainer.
pub fn in_low_side(e: Extremes, b: Bar) -> bool
    ensures { result ≡ low_side e b }
{
    b.low <= e.lowest + e.quarter()
}

// Whether a bar reaches into the highest quarter between the extremes.
pub fn in_high_side(e: Extremes, b: Bar) -> bool
    ensures { result ≡ high_side e b }
{
    b.high >= e.highest - e.quarter()
}

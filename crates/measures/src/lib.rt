// Measures of one bar and of a window of bars. A bar is four f64 prices; a run of bars is lent as prices, four to a bar: open,
// close, high, low. All is proved, nothing is assumed, and no public function has a `requires`: each contract is an equation
// with a definition of specs/, for every input, NaN, infinities and signs of zero included.
#![tactic(auto)]

pub mod folds;
pub mod runs;

pub use folds::{
    Column, Extremes, extremes_of, highest, in_high_side, in_low_side, lowest, pair_variance,
    variance,
};
pub use prices::bars::{Bar, body, is_doji, long_shadow, lower, upper};
pub use prices::price::{abs, is_nan, max, min, pick};
pub use prices::{bars, price};
pub use runs::{back, bar_or_none, put_bar};
pub use windows::{count, first_bars, last_bars, least, up_to, window};

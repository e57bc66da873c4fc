// One bar and its measures.
ghost use Rattle.std.specs.Prelude.{◌≡◌};
ghost use Rattle.prices.specs.Bar.{body_of, upper_of, lower_of, long_shadow, doji_of};

use crate::price;

// A host program lends bars in this layout.
#[repr(C)]
#[derive(Clone, Copy, Debug, PartialEq)]
pub struct Bar {
    pub open: f64,
    pub close: f64,
    pub high: f64,
    pub low: f64,
}

#[tactic(auto, unfolding(crate::specs::Bar::body_of))]
pub fn body(b: Bar) -> f64
    ensures { result ≡ body_of b }
{
    price::abs(b.open - b.close)
}

// The upper shadow.
#[tactic(auto, unfolding(crate::specs::Bar::upper_of))]
pub fn upper(b: Bar) -> f64
    ensures { result ≡ upper_of b }
{
    b.high - price::max(b.open, b.close)
}

// The lower shadow.
#[tactic(auto, unfolding(crate::specs::Bar::lower_of))]
pub fn lower(b: Bar) -> f64
    ensures { result ≡ lower_of b }
{
    price::min(b.open, b.close) - b.low
}

// The longer shadow.
#[tactic(auto, unfolding(crate::specs::Bar::long_shadow))]
pub fn long_shadow(b: Bar) -> f64
    ensures { result ≡ long_shadow b }
{
    price::max(upper(b), lower(b))
}

// The source's check_szx at a tenth of th, which counts tenths: a flat bar is no doji. The source asks close != open before the quotient;
// no bar needs that: where close == open the quotient is an infinity, and then the bar is not flat, or NaN, which is above nothing.
pub fn is_doji(b: Bar, th: f64) -> bool
    ensures { result ≡ doji_of th b }
{
    ((b.close == b.open) & (b.high != b.low)) | ((b.high - b.low) / body(b) > th / 10.0)
}

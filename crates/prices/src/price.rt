// Prices: the values and measures of one price, by the library's f64 where its contract says the whole answer.
ghost use Rattle.std.specs.Prelude.{◌≡◌, cond, true, false};
ghost use Rattle.std.specs.Float.Ieee.{is_nan};
ghost use Rattle.std.specs.Float.{inf, nan};
ghost use Rattle.prices.specs.Price.{max_of, min_of, abs_of, square_of};

// x if c holds, else y: what chooses a price, a label or a pair calls it, so that nothing branches there.
pub fn pick<T: Copy>(c: bool, x: T, y: T) -> T
    ensures { result ≡ cond c x y }
{
    if c { x } else { y }
}

// The values that no literal has, as functions since a constant carries no contract.
pub fn plus_infinity() -> f64
    ensures { result ≡ inf false }
{
    f64::INFINITY
}

pub fn minus_infinity() -> f64
    ensures { result ≡ inf true }
{
    f64::NEG_INFINITY
}

// Its bits are 7FF8000000000000.
pub fn not_a_number() -> f64
    ensures { result ≡ nan }
{
    f64::NAN
}

#[tactic(auto, using(crate::proofs::NanLaws::differs))]
pub fn is_nan(x: f64) -> bool
    ensures { result ≡ is_nan x }
{
    x.is_nan()
}

// The larger of two prices: the other one if one is NaN; b if b > a; else a. A NaN first is never the answer unless b is NaN
// too, and there is one NaN, so that b itself is asked nothing. Not f64::max: of +0 and −0 its contract allows either.
pub fn max(a: f64, b: f64) -> f64
    ensures { result ≡ max_of a b }
{
    pick(is_nan(a), b, pick(b > a, b, a))
}

// The smaller of two prices, the mirror of max: of one comparison, so that one function for both would be no plainer.
pub fn min(a: f64, b: f64) -> f64
    ensures { result ≡ min_of a b }
{
    pick(is_nan(a), b, pick(b < a, b, a))
}

// The magnitude of x; of either zero +0.
#[tactic(auto, using(crate::proofs::MagnitudeLaws::size_is), unfolding(crate::specs::Price::abs_of))]
pub fn abs(x: f64) -> f64
    ensures { result ≡ abs_of x }
{
    x.abs()
}

#[tactic(auto, unfolding(crate::specs::Price::square_of))]
pub fn square(x: f64) -> f64
    ensures { result ≡ square_of x }
{
    x * x
}

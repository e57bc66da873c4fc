// The two sides of what is held: the highest highs and the lowest lows.
ghost use Rattle.std.specs.Prelude.{◌≡◌, Bool, true, false, not, ◌&&◌, Float};
ghost use Rattle.std.specs.Float.{inf};
ghost use Rattle.std.specs.Float.Ieee.{is_nan};
ghost use Rattle.measures.specs.declared.folds.Column.{Column};
ghost use Rattle.measures.specs.declared.folds.Column.TheVariants.{High, Low};
ghost use Rattle.measures.specs.Fold.{price_of};
ghost use Rattle.held_extremes.specs.Candidate.{greater, smaller};
ghost use Rattle.held_extremes.specs.SideSteps.{SideLaws, rising, falling};

use measures::{Bar, price};

// A side: the price that counts of a bar, when a later price is beyond one, and what stands for none.
pub(crate) trait Side {
    ghost column: { Column };

    ghost beyond: { Float → Float → Bool };

    ghost start: { Float };

    fn price(b: Bar) -> f64
        ensures { result ≡ price_of column b };

    fn is_beyond(x: f64, later: f64) -> bool
        ensures { result ≡ beyond x later };

    // Whether a price is a candidate, by the foremost of the later ones: one comparison tells, since that is no NaN.
    fn stays(x: f64, foremost: f64) -> bool
        requires { is_nan foremost ≡ false }
        ensures { result ≡ (not (is_nan x) && not (beyond x foremost)) };

    fn none() -> f64
        ensures { result ≡ start };

    ghost laws: { SideLaws beyond start };
}

pub(crate) struct Highest;

impl Side for Highest {
    ghost column = { High };

    ghost beyond = { greater };

    ghost start = { inf true };

    ghost laws = { rising };

    fn price(b: Bar) -> f64 {
        b.high
    }

    fn is_beyond(x: f64, later: f64) -> bool {
        later > x
    }

    fn stays(x: f64, foremost: f64) -> bool {
        x >= foremost
    }

    fn none() -> f64 {
        price::minus_infinity()
    }
}

pub(crate) struct Lowest;

impl Side for Lowest {
    ghost column = { Low };

    ghost beyond = { smaller };

    ghost start = { inf false };

    ghost laws = { falling };

    fn price(b: Bar) -> f64 {
        b.low
    }

    fn is_beyond(x: f64, later: f64) -> bool {
        later < x
    }

    fn stays(x: f64, foremost: f64) -> bool {
        x <= foremost
    }

    fn none() -> f64 {
        price::plus_infinity()
    }
}

// The box and its making.
ghost use Rattle.std.specs.Prelude.{◌≡◌, [], ◌∷◌};
ghost use Rattle.recognisers.specs.Refusal.{bad_threshold, first_true, verdict_number};
ghost use Rattle.box_record.specs.Box.{fresh_box, made_of};

use measures::Bar;
use recognisers::counts::PLACES;
use recognisers::{Refusal, Thresholds};

// What a place holds: a bar and its ordinal, from 1 in the order of the history.
#[derive(Clone, Copy)]
pub struct KeptBar {
    pub bar: Bar,
    pub ordinal: u32,
}

// The thresholds, the count N of bars fed, and the newest 64 of them, oldest first from the first place; empty places hold zeros.
#[derive(Clone, Copy)]
pub struct BarBox {
    pub thresholds: Thresholds,
    pub count: u32,
    pub bars: [KeptBar; PLACES],
}

// A box, and whether the call that gives it is refused. No `Result`: a refused making hands out a box too, by rule (`made_of`).
#[derive(Clone, Copy)]
pub struct Outcome {
    pub after: BarBox,
    pub verdict: Result<(), Refusal>,
}

// A box without bars, with these thresholds, whatever they are: where they are outside their limits, calls on it are refused.
pub fn fresh(thresholds: Thresholds) -> BarBox
    ensures { result ≡ fresh_box thresholds }
{
    let zeros = KeptBar {
        bar: Bar {
            open: 0.0,
            close: 0.0,
            high: 0.0,
            low: 0.0,
        },
        ordinal: 0,
    };
    BarBox {
        thresholds,
        count: 0,
        bars: [zeros; PLACES],
    }
}

// A fresh box with these thresholds; if they are refused, one with the standard set.
pub fn make(t: Thresholds) -> Outcome
    ensures answer { result ≡ made_of t }
    ensures number { verdict_number result.verdict ≡ verdict_number (first_true (bad_threshold t ∷ [])) }
{
    let valid = t.is_valid();
    if valid {
        Outcome {
            verdict: Ok(()),
            after: fresh(t),
        }
    } else {
        let standard = Thresholds::standard();
        Outcome {
            verdict: Err(Refusal::BadThreshold),
            after: fresh(standard),
        }
    }
}

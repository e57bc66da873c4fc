// The layer.
ghost use Rattle.std.specs.Prelude.{◌≡◌};
ghost use Rattle.terms.specs.Layer.{whole_day, fresh_layer};

use bar_box::BarBox;
use recognisers::{Refusal, Thresholds};
use term_events::Carried;
use trading_hours::{DayWindow, Hours};

// The box of the term bars, the last stamp and the open term bar, the hours, and the term length in minutes.
#[derive(Clone, Copy)]
pub struct Layer {
    pub inner: BarBox,
    pub carried: Carried,
    pub hours: Hours,
    pub minutes: u32,
}

// A layer, and whether the making that gives it is refused. No `Result`: a refused making hands out a layer too, by rule (`made_of`).
#[derive(Clone, Copy)]
pub struct Made {
    pub after: Layer,
    pub verdict: Result<(), Refusal>,
}

// One window from 0 to 1,440.
pub(crate) fn whole_day() -> Hours
    ensures { result ≡ whole_day }
{
    let all = DayWindow { from: 0, to: 1440 };
    let none = DayWindow::default();
    Hours {
        windows: [all, none, none, none],
        count: 1,
    }
}

// A layer to which nothing came yet.
pub(crate) fn fresh(t: Thresholds, hours: Hours, minutes: u32) -> Layer
    ensures { result ≡ fresh_layer t hours minutes }
{
    Layer {
        inner: bar_box::fresh(t),
        carried: Carried::default(),
        hours,
        minutes,
    }
}

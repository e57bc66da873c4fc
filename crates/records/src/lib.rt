// The plain call over a lent slice of bar records. All is proved, nothing is assumed, and no public function has a `requires`: each
// contract is an equation with the definition of recognisers' plain call, for every input.
#![tactic(auto)]

ghost use Rattle.std.specs.Prelude.{◌≡◌, true};
ghost use Rattle.recognisers.specs.Threshold.{thresholds_of};
ghost use Rattle.recognisers.specs.Refusal.{refusal_in, codes_in};
ghost use Rattle.recognisers.specs.Call.{plain_answer, plain_number, plain_codes};
ghost use Rattle.recognisers.specs.Export.{result_of};

use measures::Bar;
use recognisers::{Pair, Refusal, Thresholds, answer_number, recognise_history};

// The plain call: as recognisers::recognise, which is lent prices. Records are whole bars, so that refusal 4 can't arise.
pub fn recognise_bars(k: u32, di: u32, t: Thresholds, bars: &[Bar]) -> Result<Pair, Refusal>
    ensures answer { result ≡ plain_answer k di t true bars.now }
    ensures number { refusal_in result ≡ plain_number k di t true bars.now }
    ensures codes { codes_in result ≡ plain_codes k di t true bars.now }
{
    recognise_history(k, di, t, true, bars)
}

// The plain call as a number, as recognisers::jcc_label, which is lent bytes. th13 and th14 count tenths. The thresholds come one by one, as
// the C function of records_c takes them.
pub fn jcc_label_bars(
    recogniser: u32,
    offset: u32,
    th0: f64,
    z2: u32,
    th2: u32,
    z3: u32,
    th3: u32,
    zdf5: u32,
    th6: u32,
    zdf7: u32,
    th8: f64,
    zf8: u32,
    th10: u32,
    th13: u32,
    th14: u32,
    bars: &[Bar],
) -> u32
    ensures { result ≡ result_of (plain_answer recogniser offset
        (thresholds_of th0 z2 th2 z3 th3 zdf5 th6 zdf7 th8 zf8 th10 th13 th14) true bars.now) }
{
    let t = Thresholds::new(
        th0, z2, th2, z3, th3, zdf5, th6, zdf7, th8, zf8, th10, th13, th14,
    );
    answer_number(recognise_bars(recogniser, offset, t, bars))
}

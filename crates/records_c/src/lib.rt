// The plain call over a lent slice of bar records, for a host program: the static library of records::jcc_label_bars.
#![tactic(auto)]

ghost use Rattle.std.specs.Prelude.{◌≡◌, true};
ghost use Rattle.recognisers.specs.Threshold.{thresholds_of};
ghost use Rattle.recognisers.specs.Call.{plain_answer};
ghost use Rattle.recognisers.specs.Export.{result_of};

use measures::Bar;

// The plain call as a number. th13 and th14 count tenths. The parameters are those of the C header.
#[unsafe(no_mangle)]
pub extern "C" fn jcc_label_bars(
    recogniser: u32,
    offset: u32,
    th0: f64,
    z2: u32,
    th2: u32,
    z3: u32,
    th3: u32,
    zdf5: u32,
    th6: u32,
    zdf7: u32,
    th8: f64,
    zf8: u32,
    th10: u32,
    th13: u32,
    th14: u32,
    bars: &[Bar],
) -> u32
    ensures { result ≡ result_of (plain_answer recogniser offset
        (thresholds_of th0 z2 th2 z3 th3 zdf5 th6 zdf7 th8 zf8 th10 th13 th14) true bars.now) }
{
    records::jcc_label_bars(
        recogniser, offset, th0, z2, th2, z3, th3, zdf5, th6, zdf7, th8, zf8, th10, th13, th14,
        bars,
    )
}

// The plain call over the bytes of a history, for a host program: the static library of recognisers::jcc_label.
#![tactic(auto)]

ghost use Rattle.std.specs.Prelude.{◌≡◌};
ghost use Rattle.recognisers.specs.Threshold.{thresholds_of};
ghost use Rattle.recognisers.specs.Export.{export_of};

// The plain call over the bars of the bytes, as a number. th13 and th14 count tenths: whoever passes 10 as before gets a tenth of what he means.
// The parameters are those of the C header.
#[unsafe(no_mangle)]
pub extern "C" fn jcc_label(
    recogniser: u32,
    offset: u32,
    th0: f64,
    z2: u32,
    th2: u32,
    z3: u32,
    th3: u32,
    zdf5: u32,
    th6: u32,
    zdf7: u32,
    th8: f64,
    zf8: u32,
    th10: u32,
    th13: u32,
    th14: u32,
    bars: &[u8],
) -> u32
    ensures { result ≡ export_of recogniser offset
        (thresholds_of th0 z2 th2 z3 th3 zdf5 th6 zdf7 th8 zf8 th10 th13 th14) bars.now }
{
    recognisers::jcc_label(
        recogniser, offset, th0, z2, th2, z3, th3, zdf5, th6, zdf7, th8, zf8, th10, th13, th14,
        bars,
    )
}

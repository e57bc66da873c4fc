// The call as a host program makes it: numbers, thresholds and bars as bytes, each price's bits little-endian. recognisers_c exports it.
ghost use Rattle.std.specs.Prelude.{◌≡◌};
ghost use Rattle.std.specs.Float.{binary64};
ghost use Rattle.std.specs.Float.Ieee.{of_bits};
ghost use Rattle.thresholds.specs.Threshold.{thresholds_of};
ghost use Rattle.recognisers.specs.Export.{bar_at, export_of, price_at};

use crate::history::{ToBar, recognise_history};
use answers::answer_number;
use measures::{Bar, price};
use thresholds::Thresholds;

// The bytes of a bar: eight for each price.
pub const BAR_BYTES: usize = 32;

// The float of a bit pattern. A NaN's pattern with its sign taken off is a number above the infinity's; whatever its payload, it
// becomes the one NaN: f64::from_bits asks that there is none.
pub fn of_bits(w: u64) -> f64
    ensures { result ≡ of_bits binary64 w }
{
    if 0x7FF0_0000_0000_0000 < w % 0x8000_0000_0000_0000 {
        price::not_a_number()
    } else {
        f64::from_bits(w)
    }
}

// The price of its bytes.
fn price_of(bytes: [u8; 8]) -> f64
    ensures { result ≡ price_at bytes 0 }
{
    of_bits(u64::from_le_bytes(bytes))
}

impl ToBar for [u8; BAR_BYTES] {
    ghost bar = { λ bytes. bar_at bytes 0 };

    fn to_bar(&self) -> Bar {
        let (prices, _) = self.as_chunks::<8>();
        Bar {
            open: price_of(prices[0]),
            close: price_of(prices[1]),
            high: price_of(prices[2]),
            low: price_of(prices[3]),
        }
    }
}

// The plain call over the bars of the bytes, as a number. th13 and th14 count tenths: whoever passes 10 as before gets a tenth of what he means.
// The thresholds come one by one, as a C program passes them.
pub fn jcc_label(
    recogniser: u32,
    offset: u32,
    th0: f64,
    z2: u32,
    th2: u32,
    z3: u32,
    th3: u32,
    zdf5: u32,
    th6: u32,
    zdf7: u32,
    th8: f64,
    zf8: u32,
    th10: u32,
    th13: u32,
    th14: u32,
    bars: &[u8],
) -> u32
    ensures { result ≡ export_of recogniser offset
        (thresholds_of th0 z2 th2 z3 th3 zdf5 th6 zdf7 th8 zf8 th10 th13 th14) bars.now }
{
    let t = Thresholds::new(
        th0, z2, th2, z3, th3, zdf5, th6, zdf7, th8, zf8, th10, th13, th14,
    );
    let (history, rest) = bars.as_chunks::<BAR_BYTES>();
    answer_number(recognise_history(recogniser, offset, t, rest.is_empty(), history))
}

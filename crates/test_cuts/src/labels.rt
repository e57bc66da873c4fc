// Which labels the rows of a history have.
ghost use Rattle.std.specs.Prelude.{◌≤◌};
ghost use Rattle.recognisers.specs.Number.{row_bytes};

use crate::cuts::bars_in;
use crate::plain::rows;
use recognisers::counts::{LABELS, RECOGNISERS, ROW_BYTES};
use test_output::number;

// The labels, as their codes count them.
const CODES: u8 = LABELS as u8;

// How many of the v1 at a place of the sheet and each so many bytes on are wanted.
fn count<Wanted: Fn(u8) -> bool>(sheet: &[u8], from: usize, by: usize, wanted: Wanted) -> usize
    requires step { (1 ≤ by) × (by ≤ row_bytes) }
    requires pre { (f : _) (x : _) → Wanted.pre f x }
{
    sheet
        .iter()
        .skip(from)
        .step_by(by)
        .filter(|v1| wanted(**v1))
        .count()
}

// For each recogniser how often its v1 is other than 其他.
pub fn write_recognisers(prices: &[f64]) {
    let sheet = rows(prices);
    let end = ROW_BYTES * bars_in(prices);
    for k in 0..RECOGNISERS {
        number(
            b" ",
            count(&sheet[..end], 2 * k, ROW_BYTES, |v1| v1 != 0) as u64,
        );
    }
}

// How often each such v1 stands.
pub fn write_codes(prices: &[f64]) {
    let sheet = rows(prices);
    for code in 1..CODES {
        let n = count(&sheet, 0, 2, |v1| v1 == code) as u64;
        if n != 0 {
            number(b" ", u64::from(code));
            number(b"x", n);
        }
    }
}

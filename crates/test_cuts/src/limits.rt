// Refusals and limits of the box.
use crate::cuts::{SHEET, feed_to};
use crate::digest::{KINDS, of_box, of_bytes, of_places};
use bar_box::BarBox;
use recognisers::counts::ROW_BYTES;
use recognisers::label::code;
use recognisers::refusals::{refusal_number, verdict_number};
use recognisers::{Judged, Refusal, Thresholds, answer_in, answer_number};
use test_output::{digest, number};

// The standard set but for the i-th threshold: x where that is a float, else n. By number, in the order of the script's
// thirteen makings: an array of closures is no plainer.
pub fn changed(i: u32, x: f64, n: u32) -> Thresholds {
    let mut t = Thresholds::standard();
    match i {
        0 => t.th0 = x,
        1 => t.z2 = n,
        2 => t.th2 = n,
        3 => t.z3 = n,
        4 => t.th3 = n,
        5 => t.zdf5 = n,
        6 => t.th6 = n,
        7 => t.zdf7 = n,
        8 => t.th8 = x,
        9 => t.zf8 = n,
        10 => t.th10 = n,
        11 => t.th13 = n,
        _ => t.th14 = n,
    }
    t
}

// The verdicts on thirteen makings, each with one threshold changed.
pub fn write_makings(x: f64, n: u32) {
    for i in 0..13 {
        let made = bar_box::make(changed(i, x, n));
        number(b" ", u64::from(verdict_number(made.verdict)));
    }
}

// A feed that has room for all rows.
pub fn grow(b: &mut BarBox, prices: &[f64]) {
    let mut sheet = [255u8; SHEET];
    let _ = feed_to(b, prices, &mut sheet, 0..SHEET);
}

// A sheet with room for three bars.
const SMALL_SHEET: usize = 3 * ROW_BYTES;

// So many bytes of such a sheet are lent. Writes the verdict, then the box and the whole sheet after it.
pub fn feed(b: &mut BarBox, prices: &[f64], lent: usize) {
    let mut sheet = [255u8; SMALL_SHEET];
    let verdict = feed_to(b, prices, &mut sheet, 0..lent);
    number(b": ", u64::from(verdict_number(verdict)));
    number(b" count ", u64::from(b.count));
    digest(b" box ", of_box(*b));
    digest(b" sheet ", of_bytes(&sheet));
}

pub fn write_places(b: BarBox) {
    let bars = &b.bars;
    number(b": count ", u64::from(b.count));
    digest(b", 0 to 9 ", of_places(&bars[..10]));
    digest(b", 10 to 12 ", of_places(&bars[10..13]));
    digest(b", 13 to 63 ", of_places(&bars[13..]));
}

// The judged bar's ordinal; a refused look has none.
fn write_ordinal(a: Result<Judged, Refusal>) {
    if let Ok(judged) = a {
        number(b" ordinal ", u64::from(judged.ordinal));
    }
}

pub fn write_look(b: BarBox, k: u32, di: u32) {
    let a = bar_box::look(b, k, di);
    match a {
        Err(why) => number(b": refused ", u64::from(refusal_number(why))),
        Ok(judged) => {
            number(b": v1 ", u64::from(code(judged.pair.v1)));
            number(b" v2 ", u64::from(code(judged.pair.v2)));
        }
    }
    write_ordinal(a);
}

// Every recogniser at an offset, v1 × 256 + v2, then the ordinal, which is the same for all.
pub fn write_looks(b: BarBox, di: u32) {
    for k in 0..KINDS {
        let n = answer_number(answer_in(bar_box::look(b, k, di)));
        number(b" ", u64::from(n));
    }
    write_ordinal(bar_box::look(b, 0, di));
}

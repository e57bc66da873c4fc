// A history in feeds, and a look after them.
ghost use Rattle.std.specs.Prelude.{◌≡◌, length};
ghost use Rattle.recognisers.specs.Threshold.{thresholds_of};
ghost use Rattle.recognisers.specs.Refusal.{verdict_number, answer_in, ordinal_in};
ghost use Rattle.recognisers.specs.Export.{result_of};
ghost use Rattle.bar_box.specs.Box.{fresh_box, fed_of, sheet_of};
ghost use Rattle.exports.specs.Feeds.{look_after};

use bar_box::{BarBox, fresh};
use part_feeds::feed_parts;
use recognisers::refusals::verdict_number;
use recognisers::{Judged, Refusal, Thresholds, answer_in, answer_number, ordinal_in};

// A box without bars is fed the prices in feeds of these sizes.
fn feed(b: &mut BarBox, sizes: &[u32], prices: &[f64], sheet: &mut [u8]) -> Result<(), Refusal>
    requires { b.old.count ≡ 0 }
    ensures verdict { result ≡ (fed_of b.old prices.now (length sheet.old)).verdict }
    ensures after { b.new ≡ (fed_of b.old prices.now (length sheet.old)).after }
    ensures sheet { sheet.new ≡ sheet_of b.old prices.now sheet.old }
{
    feed_parts(b, false, tallies::fresh(), sizes, prices, sheet)?;
    Ok(())
}

// A fresh box is fed the prices in feeds of these sizes. The answer is 0, or the number of the refusal, which leaves the sheet. The thresholds
// are thirteen parameters here and below, since C passes them so.
#[unsafe(no_mangle)]
pub extern "C" fn jcc_feed(
    th0: f64,
    z2: u32,
    th2: u32,
    z3: u32,
    th3: u32,
    zdf5: u32,
    th6: u32,
    zdf7: u32,
    th8: f64,
    zf8: u32,
    th10: u32,
    th13: u32,
    th14: u32,
    sizes: &[u32],
    prices: &[f64],
    sheet: &mut [u8],
) -> u32
    ensures { let b = fresh_box (thresholds_of th0 z2 th2 z3 th3 zdf5 th6 zdf7 th8 zf8 th10 th13 th14) in
        (result ≡ verdict_number (fed_of b prices.now (length sheet.old)).verdict) × (sheet.new ≡ sheet_of b prices.now sheet.old) }
{
    let t = Thresholds::new(
        th0, z2, th2, z3, th3, zdf5, th6, zdf7, th8, zf8, th10, th13, th14,
    );
    let mut b = fresh(t);
    let verdict = feed(&mut b, sizes, prices, sheet);
    u32::from(verdict_number(verdict))
}

// The same feeds, then one look at the box that they leave; after a refused feed no look is made, and its refusal is handed on.
fn look_after(
    recogniser: u32,
    offset: u32,
    t: Thresholds,
    sizes: &[u32],
    prices: &[f64],
    sheet: &mut [u8],
) -> Result<Judged, Refusal>
    ensures { (result ≡ look_after (fed_of (fresh_box t) prices.now (length sheet.old)) recogniser offset) × (sheet.new ≡ sheet_of (fresh_box t) prices.now sheet.old) }
{
    let mut b = fresh(t);
    feed(&mut b, sizes, prices, sheet)?;
    bar_box::look(b, recogniser, offset)
}

// The same feeds, then one look: v1 × 256 + v2, or 65,536 plus the refusal of the feed or of the look.
#[unsafe(no_mangle)]
pub extern "C" fn jcc_look(
    recogniser: u32,
    offset: u32,
    th0: f64,
    z2: u32,
    th2: u32,
    z3: u32,
    th3: u32,
    zdf5: u32,
    th6: u32,
    zdf7: u32,
    th8: f64,
    zf8: u32,
    th10: u32,
    th13: u32,
    th14: u32,
    sizes: &[u32],
    prices: &[f64],
    sheet: &mut [u8],
) -> u32
    ensures { let b = fresh_box (thresholds_of th0 z2 th2 z3 th3 zdf5 th6 zdf7 th8 zf8 th10 th13 th14) in
        let looked = look_after (fed_of b prices.now (length sheet.old)) recogniser offset in
        (result ≡ result_of (answer_in looked)) × (sheet.new ≡ sheet_of b prices.now sheet.old) }
{
    let t = Thresholds::new(
        th0, z2, th2, z3, th3, zdf5, th6, zdf7, th8, zf8, th10, th13, th14,
    );
    let found = look_after(recogniser, offset, t, sizes, prices, sheet);
    answer_number(answer_in(found))
}

// The same feeds, then one look: the judged bar's ordinal, or 0 where there is none or the feed or the look is refused.
#[unsafe(no_mangle)]
pub extern "C" fn jcc_look_ordinal(
    recogniser: u32,
    offset: u32,
    th0: f64,
    z2: u32,
    th2: u32,
    z3: u32,
    th3: u32,
    zdf5: u32,
    th6: u32,
    zdf7: u32,
    th8: f64,
    zf8: u32,
    th10: u32,
    th13: u32,
    th14: u32,
    sizes: &[u32],
    prices: &[f64],
    sheet: &mut [u8],
) -> u32
    ensures { let b = fresh_box (thresholds_of th0 z2 th2 z3 th3 zdf5 th6 zdf7 th8 zf8 th10 th13 th14) in
        let looked = look_after (fed_of b prices.now (length sheet.old)) recogniser offset in
        (result ≡ ordinal_in looked) × (sheet.new ≡ sheet_of b prices.now sheet.old) }
{
    let t = Thresholds::new(
        th0, z2, th2, z3, th3, zdf5, th6, zdf7, th8, zf8, th10, th13, th14,
    );
    let judged = look_after(recogniser, offset, t, sizes, prices, sheet);
    ordinal_in(judged)
}

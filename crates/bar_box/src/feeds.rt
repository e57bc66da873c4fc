// A feed.
ghost use Rattle.std.specs.Prelude.{◌≡◌, ◌+◌, ◌-◌, ◌*◌, ◌≤◌, ◌++◌, length, take, drop};
ghost use Rattle.measures.specs.Bar.{bars_of, overlay};
ghost use Rattle.recognisers.specs.Number.{row_bytes, places};
ghost use Rattle.recognisers.specs.Refusal.{verdict_number, feed_verdict};
ghost use Rattle.bar_box.specs.Sheet.{rows_of, before};
ghost use Rattle.bar_box.specs.Box.{kept, numbered, laid, taken_in, fed_of, sheet_of};

use crate::sheets::BEFORE;
use crate::{runs, sheets};
use box_record::{BarBox, KeptBar};
use measures::least;
use recognisers::box_verdicts::feed_verdict;
use recognisers::counts::{PLACES, ROW_BYTES};
use recognisers::{Refusal, Thresholds};

// Writes the rows of the lent bars, which follow count others; the newest of these stand at the front of the run, old of them. Those that a
// rule's window may begin before are labelled over the run, where they come behind those, the others straight over the lent prices.
fn label(t: Thresholds, count: u32, run: &mut [f64], old: usize, prices: &[f64], sheet: &mut [u8])
    requires { (8 * before ≤ length run.old) × (old ≤ before) × (count + length (bars_of prices.now) ≤ 4294967295) × (row_bytes * length (bars_of prices.now) ≤ length sheet.old) }
    ensures { sheet.new ≡ overlay sheet.old 0 (rows_of t count (take old (bars_of run.old)) (bars_of prices.now)) }
{
    let new = least(measures::count(prices), BEFORE);
    runs::put_prices(prices, 4 * new, run, 4 * old);
    let end = 4 * old + 4 * new;
    sheets::label_run(t, &run[..end], old, count as usize, sheet, 0);
    sheets::label_run(t, prices, new, count as usize + new, sheet, ROW_BYTES * new);
}

// The bars from one place on, before another, move to the front.
fn move_to_front(bars: &mut [KeptBar], from: usize, to: usize)
    requires { (from ≤ to) × (to ≤ length bars.old) }
    ensures { bars.new ≡ overlay bars.old 0 (take (to - from) (drop from bars.old)) }
{
    // over a distance that is known the compiler moves all places at once
    if from == 1 {
        bars.copy_within(1..to, 0);
    } else {
        bars.copy_within(from..to, 0);
    }
}

// The newest lent bars come behind those that stay of the kept ones: 64 in all, if there are as many.
fn keep_newest(bars: &mut [KeptBar], count: u32, prices: &[f64])
    requires { (length bars.old ≡ places) × (count + length (bars_of prices.now) ≤ 4294967295) }
    ensures { bars.new ≡ laid bars.old (take count bars.old ++ numbered count (bars_of prices.now)) }
{
    let kept = least(count as usize, PLACES);
    let n = measures::count(prices);
    let new = least(n, PLACES);
    let stay = least(kept, PLACES - new);
    move_to_front(bars, kept - stay, kept);
    let first = n - new;
    for k in 0..new {
        bars[stay + k] = runs::numbered_bar(prices, first + k, count);
    }
}

// Writes the rows of the lent bars and takes them in: the newest 64 bars, then what the places past them held.
fn take_in(b: &mut BarBox, prices: &[f64], sheet: &mut [u8])
    requires { (b.old.count + length (bars_of prices.now) ≤ 4294967295) × (row_bytes * length (bars_of prices.now) ≤ length sheet.old) }
    ensures after { b.new ≡ taken_in b.old (bars_of prices.now) }
    ensures sheet { sheet.new ≡ overlay sheet.old 0 (rows_of b.old.thresholds b.old.count (kept b.old) (bars_of prices.now)) }
{
    let kept = least(b.count as usize, PLACES);
    let old = least(kept, BEFORE);
    let from = kept - old;
    let mut run = [0.0; 8 * BEFORE];
    for i in 0..old {
        measures::put_bar(b.bars[from + i].bar, &mut run, i);
    }
    label(b.thresholds, b.count, &mut run, old, prices, sheet);
    keep_newest(&mut b.bars, b.count, prices);
    b.count += measures::count(prices) as u32;
}

// Takes the lent bars in and writes a row for each, or refuses and leaves box and sheet as they were.
#[tactic(auto, using(crate::proofs::FeedFits::few_bars, crate::proofs::FeedFits::room_left, crate::proofs::FeedFits::bars_in, crate::proofs::FeedFits::whole_run), unfolding(crate::specs::Box::fed_of, crate::specs::Box::sheet_of))]
pub fn feed(b: &mut BarBox, prices: &[f64], sheet: &mut [u8]) -> Result<(), Refusal>
    ensures verdict { result ≡ (fed_of b.old prices.now (length sheet.old)).verdict }
    ensures after { b.new ≡ (fed_of b.old prices.now (length sheet.old)).after }
    ensures sheet { sheet.new ≡ sheet_of b.old prices.now sheet.old }
    ensures number { verdict_number result ≡ verdict_number (feed_verdict b.old.thresholds b.old.count (length prices.now) (length sheet.old)) }
{
    feed_verdict(b.thresholds, b.count, prices.len(), sheet.len())?;
    take_in(b, prices, sheet);
    Ok(())
}

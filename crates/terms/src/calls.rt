// Making, a run of bars and a close.
ghost use Rattle.std.specs.Prelude.{◌≡◌, ◌+◌, ◌*◌, ◌≤◌, Ok, length, take};
ghost use Rattle.measures.specs.Bar.{bars_of, overlay};
ghost use Rattle.recognisers.specs.Number.{row_bytes, places};
ghost use Rattle.recognisers.specs.Refusal.{verdict_number, feed_verdict};
ghost use Rattle.bar_box.specs.Sheet.{rows_of};
ghost use Rattle.bar_box.specs.Box.{kept, taken_in};
ghost use Rattle.term_events.specs.Events.{minutes_of, carried_of};
ghost use Rattle.term_events.specs.Verdicts.{make_verdict};
ghost use Rattle.terms.specs.Layer.{layer_with, ended_in, run_verdict_of, close_verdict_of, made_of, ran_of, ran_sheet, closed_of, closed_sheet, rows_answer, verdict_in};

use crate::layers;
use crate::layers::{Layer, Made};
use bar_box::BarBox;
use measures::put_bar;
use recognisers::counts::{PLACES, ROW_BYTES};
use recognisers::{Refusal, Thresholds};
use term_events::verdicts;
use trading_hours::{Hours, hours};

// How many term bars are fed to the box at a time.
const ROOM_BARS: usize = 32;

// Feeds the first n bars of a run of prices, if there are any; their rows go to a row of the sheet and those after it. Behind a reference a proof
// knows that a box has all its places only once they are read: `prove!` does that here and below, and costs nothing.
fn feed_front(b: &mut BarBox, run: &[f64], n: usize, sheet: &mut [u8], row: usize)
    requires { (feed_verdict b.old.thresholds b.old.count (4 * n) (row_bytes * n) ≡ Ok tt) × ((4 * n ≤ length run.now) × (row_bytes * (row + n) ≤ length sheet.old)) }
    ensures after { b.new ≡ taken_in b.old (bars_of (take (4 * n) run.now)) }
    ensures sheet { sheet.new ≡ overlay sheet.old (row_bytes * row) (rows_of b.old.thresholds b.old.count (kept b.old) (bars_of (take (4 * n) run.now))) }
{
    prove!(b.bars[..].len() == PLACES);
    if n == 0 {
        return;
    }
    bar_box::feed(b, &run[..4 * n], &mut sheet[ROW_BYTES * row..]).unwrap();
}

// Takes the bars of a run in that is not refused: the term bars that end are fed to the box, as many at a time as there is room for; their rows
// stand one after the other. The answer is how many rows were filled.
fn take_bars(l: &mut Layer, prices: &[f64], stamps: &[u32], sheet: &mut [u8]) -> usize
    requires { run_verdict_of l.old (length prices.now) stamps.now (length sheet.old) ≡ Ok tt }
    ensures { let es = minutes_of stamps.now (bars_of prices.now) in
        let b = l.old.inner in
        let ended = ended_in l.old es in
        (result ≡ length ended)
        × (l.new ≡ layer_with l.old.hours l.old.minutes (carried_of l.old.hours l.old.minutes l.old.carried es) (taken_in b ended))
        × (sheet.new ≡ overlay sheet.old 0 (rows_of b.thresholds b.count (kept b) ended)) }
{
    prove!(l.inner.bars[..].len() == PLACES);
    let mut run = [0.0; 4 * ROOM_BARS];
    let mut rows = 0usize;
    let mut done = 0usize;
    // a part ends where the next one begins: no `for` steps so
    while done < stamps.len() {
        let part = term_events::pass(
            l.hours, l.minutes, l.carried, prices, stamps, done, &mut run,
        );
        feed_front(&mut l.inner, &run, part.count, sheet, rows);
        l.carried = part.carried;
        rows += part.count;
        done = part.at;
    }
    rows
}

// Takes a run of bars in, one stamp a bar, and writes a row for each term bar that ended, or refuses and leaves layer and sheet as they
// were. The answer is how many rows were filled. Prices and stamps are two slices, since the C interface (jcc_terms) lends them so.
pub fn run(
    l: &mut Layer,
    prices: &[f64],
    stamps: &[u32],
    sheet: &mut [u8],
) -> Result<usize, Refusal>
    ensures answer { result ≡ rows_answer (ran_of l.old prices.now stamps.now (length sheet.old)) }
    ensures after { l.new ≡ (ran_of l.old prices.now stamps.now (length sheet.old)).after }
    ensures sheet { sheet.new ≡ ran_sheet l.old prices.now stamps.now sheet.old }
    ensures number { verdict_number (verdict_in result) ≡ verdict_number (run_verdict_of l.old (length prices.now) stamps.now (length sheet.old)) }
{
    verdicts::run_verdict(
        l.inner.thresholds,
        l.hours,
        l.minutes,
        l.carried,
        l.inner.count,
        prices.len(),
        stamps,
        sheet.len(),
    )?;
    Ok(take_bars(l, prices, stamps, sheet))
}

// Ends the open term, if there is one, and writes its bar's row, or refuses and leaves layer and sheet as they were. The answer is how many rows
// were filled.
pub fn close(l: &mut Layer, sheet: &mut [u8]) -> Result<usize, Refusal>
    ensures answer { result ≡ rows_answer (closed_of l.old (length sheet.old)) }
    ensures after { l.new ≡ (closed_of l.old (length sheet.old)).after }
    ensures sheet { sheet.new ≡ closed_sheet l.old sheet.old }
    ensures number { verdict_number (verdict_in result) ≡ verdict_number (close_verdict_of l.old (length sheet.old)) }
{
    verdicts::close_verdict(
        l.inner.thresholds,
        l.hours,
        l.minutes,
        l.carried,
        l.inner.count,
        sheet.len(),
    )?;
    prove!(l.inner.bars[..].len() == PLACES);
    match l.carried.pending.take() {
        None => Ok(0),
        Some(bar) => {
            let mut prices = [0.0; 4];
            put_bar(bar, &mut prices, 0);
            bar_box::feed(&mut l.inner, &prices, sheet).unwrap();
            Ok(1)
        }
    }
}

// A fresh layer with these thresholds, hours and term length, and zeros in the unused places of the hours; if they are refused, one with
// the standard set, the whole day and 5.
pub fn make(t: Thresholds, h: Hours, m: u32) -> Made
    ensures after { result.after ≡ (made_of t h m).after }
    ensures verdict { result.verdict ≡ (made_of t h m).verdict }
    ensures number { verdict_number result.verdict ≡ verdict_number (make_verdict t h m) }
{
    let verdict = verdicts::make_verdict(t, h, m);
    let after = match verdict {
        Ok(()) => layers::fresh(t, hours::with_zeros(h), m),
        Err(_) => layers::fresh(Thresholds::standard(), layers::whole_day(), 5),
    };
    Made { after, verdict }
}

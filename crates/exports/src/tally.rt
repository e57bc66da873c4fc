// A history in feeds with a tally, and a table as a run of numbers, those of recogniser k from LABELS × k on.
ghost use Rattle.std.specs.Prelude.{◌≡◌, ◌+◌, ◌*◌, ◌<◌, get_or, replicate};
ghost use Rattle.recognisers.specs.Number.{recognisers, labels};
ghost use Rattle.recognisers.specs.Refusal.{verdict_number};
ghost use Rattle.recognisers.specs.Threshold.{thresholds_of};
ghost use Rattle.bar_box.specs.Box.{fresh_box};
ghost use Rattle.tallies.specs.Tally.{gain_row};
ghost use Rattle.tallies.specs.Feed.{lent, tallied_of, tallied_sheet};
ghost use Rattle.term_calls.specs.Numbers.{written_to};
ghost use Rattle.exports.specs.Tally.{tally_in, numbers_of, numbers_after};

use bar_box::fresh;
use part_feeds::feed_parts;
use recognisers::counts::{LABELS, RECOGNISERS};
use recognisers::refusals::verdict_number;
use recognisers::{Refusal, Thresholds};
use std::array::from_fn;
use tallies::TallyRow;
use term_calls::number_at;

// The numbers of a table. `tallies` has the same constant in a module of its own, which it doesn't hand out.
const CELLS: usize = LABELS * RECOGNISERS;

// The row of recogniser k.
fn row_of(numbers: &[u32], k: usize) -> TallyRow
    requires { k < recognisers }
    ensures { result.counts ≡ gain_row (λ c. get_or numbers.now (labels * k + c) 0) (replicate labels 0) }
{
    TallyRow {
        counts: from_fn(|c| number_at(numbers, LABELS * k + c)),
    }
}

// The table with these numbers.
fn table_of(numbers: &[u32]) -> [TallyRow; RECOGNISERS]
    ensures { result ≡ tally_in numbers.now }
{
    from_fn(|k| row_of(numbers, k))
}

// Writes the table's numbers, as far as there are places for them. Row and column come from the place's index, so that `iter_mut().enumerate()`
// would have it too, over a slice of the places first: no plainer.
fn put(tally: [TallyRow; RECOGNISERS], numbers: &mut [u32])
    ensures { numbers.new ≡ written_to numbers.old (numbers_of tally) }
{
    for i in 0..numbers.len().min(CELLS) {
        numbers[i] = tally[i / LABELS].counts[i % LABELS];
    }
}

// A fresh box is fed the prices in feeds of these sizes, with the tally that the numbers are; a refusal leaves sheet and numbers.
fn feed(
    t: Thresholds,
    sizes: &[u32],
    prices: &[f64],
    sheet: &mut [u8],
    numbers: &mut [u32],
) -> Result<(), Refusal>
    ensures { let tally = tally_in numbers.old in
        let f = lent prices.now sheet.old in
        let one = tallied_of (fresh_box t) tally f in
        (result ≡ one.verdict) × (sheet.new ≡ tallied_sheet (fresh_box t) tally f) × (numbers.new ≡ numbers_after numbers.old one) }
{
    let mut b = fresh(t);
    let tally = table_of(numbers);
    let after = feed_parts(&mut b, true, tally, sizes, prices, sheet)?;
    put(after, numbers);
    Ok(())
}

// A fresh box is fed the prices in feeds of these sizes, with the tally that the numbers are. The answer is 0, or the number of the refusal,
// which leaves sheet and numbers. The thresholds are thirteen parameters, since C passes them so.
#[unsafe(no_mangle)]
pub extern "C" fn jcc_tally(
    th0: f64,
    z2: u32,
    th2: u32,
    z3: u32,
    th3: u32,
    zdf5: u32,
    th6: u32,
    zdf7: u32,
    th8: f64,
    zf8: u32,
    th10: u32,
    th13: u32,
    th14: u32,
    sizes: &[u32],
    prices: &[f64],
    sheet: &mut [u8],
    numbers: &mut [u32],
) -> u32
    ensures { let b = fresh_box (thresholds_of th0 z2 th2 z3 th3 zdf5 th6 zdf7 th8 zf8 th10 th13 th14) in
        let tally = tally_in numbers.old in
        let f = lent prices.now sheet.old in
        (result ≡ verdict_number (tallied_of b tally f).verdict) × (sheet.new ≡ tallied_sheet b tally f) × (numbers.new ≡ numbers_after numbers.old (tallied_of b tally f)) }
{
    let t = Thresholds::new(
        th0, z2, th2, z3, th3, zdf5, th6, zdf7, th8, zf8, th10, th13, th14,
    );
    let verdict = feed(t, sizes, prices, sheet, numbers);
    u32::from(verdict_number(verdict))
}

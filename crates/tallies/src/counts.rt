// Counting the rows of a sheet. They are counted row by row into one run of numbers, those of recogniser k from LABELS × k on, and then added
// to the table: within a row the eighteen counts don't wait for one another, as those of one recogniser, row after row, would.
ghost use Rattle.std.specs.Prelude.{◌≡◌, ℕ, ◌+◌, ◌*◌, ◌/◌, ◌≤◌, ◌<◌, true, length, get_or};
ghost use Rattle.recognisers.specs.Number.{recognisers, labels, row_bytes, most_bars};
ghost use Rattle.tallies.specs.Tally.{Shaped, adds_up, counts_of, gain_row, gained, counted};
ghost use Rattle.tallies.specs.Count.{cells};
ghost use Rattle.tallies.specs.CountSteps.{Known, Counted, Fits};

use crate::table::TallyRow;
use recognisers::counts::{LABELS, RECOGNISERS, ROW_BYTES};

// The numbers of all recognisers.
const CELLS: usize = LABELS * RECOGNISERS;

// Counts the i-th row of a sheet, from 0.
fn count_row(sheet: &[u8], i: usize, numbers: &mut [u32])
    requires { (Known sheet.now) × (i < length sheet.now / row_bytes) × (i < most_bars) × (Counted sheet.now i numbers.old) }
    ensures { Counted sheet.now (i + 1) numbers.new }
{
    for k in 0..RECOGNISERS {
        let code = usize::from(sheet[ROW_BYTES * i + 2 * k]);
        numbers[LABELS * k + code] += 1;
    }
}

// How many rows of a sheet have each code as v1 of each recogniser.
fn count_rows(sheet: &[u8]) -> [u32; CELLS]
    requires { (Known sheet.now) × (length sheet.now / row_bytes ≤ most_bars) }
    ensures { Counted sheet.now (length sheet.now / row_bytes) result }
{
    let n = sheet.len() / ROW_BYTES;
    let mut numbers = [0u32; CELLS];
    for i in 0..n {
        count_row(sheet, i, &mut numbers);
    }
    numbers
}

// Adds the numbers of recogniser k to its row.
fn add_row(row: TallyRow, k: usize, numbers: &[u32]) -> TallyRow
    requires { (k < recognisers) × (length numbers.now ≡ cells) × (Fits numbers.now k row.counts) }
    ensures { result.counts ≡ gain_row (λ c. get_or numbers.now (labels * k + c) 0) row.counts }
{
    let mut counts = row.counts;
    for c in 0..LABELS {
        counts[c] += numbers[LABELS * k + c];
    }
    TallyRow { counts }
}

// Adds the numbers to the table.
fn add(tally: [TallyRow; RECOGNISERS], numbers: &[u32]) -> [TallyRow; RECOGNISERS]
    requires { (length numbers.now ≡ cells) × ((k : ℕ) → k < recognisers → Fits numbers.now k (counts_of tally k)) }
    ensures { result ≡ gained (λ k c. get_or numbers.now (labels * k + c) 0) tally }
{
    let mut next = tally;
    for k in 0..RECOGNISERS {
        next[k] = add_row(tally[k], k, numbers);
    }
    next
}

// The table with the rows of a sheet counted, where it counts n bars before them.
pub(crate) fn count(tally: [TallyRow; RECOGNISERS], n: u32, sheet: &[u8]) -> [TallyRow; RECOGNISERS]
    requires { (Known sheet.now) × (Shaped tally) × (adds_up n tally ≡ true) × (n + length sheet.now / row_bytes ≤ most_bars) }
    ensures { result ≡ counted sheet.now tally }
{
    let numbers = count_rows(sheet);
    add(tally, &numbers)
}

// Rows of a sheet.
ghost use Rattle.std.specs.Prelude.{◌≡◌, ◌+◌, ◌-◌, ◌*◌, ◌≤◌, length, take, drop};
ghost use Rattle.measures.specs.Bar.{bars_of, overlay};
ghost use Rattle.recognisers.specs.Number.{row_bytes};
ghost use Rattle.recognisers.specs.Table.{codes_of};
ghost use Rattle.bar_box.specs.Sheet.{rows_of};

use recognisers::counts::{REACH_BARS, RECOGNISERS, ROW_BYTES};
use recognisers::label::code;
use recognisers::table::newest_pairs;
use recognisers::{Pair, Thresholds};

// The bars before a bar that its row can read: the reach less the bar itself.
pub(crate) const BEFORE: usize = REACH_BARS - 1;

// Writes the codes of pairs from a place of the sheet on.
fn write_row(pairs: [Pair; RECOGNISERS], sheet: &mut [u8], at: usize)
    requires { at + row_bytes ≤ length sheet.old }
    ensures { sheet.new ≡ overlay sheet.old at (codes_of pairs) }
{
    for k in 0..RECOGNISERS {
        sheet[at + 2 * k] = code(pairs[k].v1);
        sheet[at + 2 * k + 1] = code(pairs[k].v2);
    }
}

// Writes a row for each of the lent bars from the first one asked for on, from a place of the sheet on; those before it are the newest of
// the len bars fed before.
pub(crate) fn label_run(
    t: Thresholds,
    prices: &[f64],
    first: usize,
    len: usize,
    sheet: &mut [u8],
    at: usize,
)
    requires { (first ≤ length (bars_of prices.now)) × ((len + (length (bars_of prices.now) - first) ≤ 4294967295) × (at + row_bytes * (length (bars_of prices.now) - first) ≤ length sheet.old)) }
    ensures { sheet.new ≡ overlay sheet.old at (rows_of t len (take first (bars_of prices.now)) (drop first (bars_of prices.now))) }
{
    let n = measures::count(prices) - first;
    for j in 0..n {
        let history = measures::first_bars(prices, first + j + 1);
        let pairs = newest_pairs(t, len + j + 1, history);
        write_row(pairs, sheet, at + ROW_BYTES * j);
    }
}

// A feed with a tally.
ghost use Rattle.std.specs.Prelude.{◌≡◌};
ghost use Rattle.recognisers.specs.Refusal.{verdict_number};
ghost use Rattle.tallies.specs.Tally.{Shaped};
ghost use Rattle.tallies.specs.Feed.{lent, tally_verdict, verdict_with, tallied_of, tallied_sheet, table_answer, verdict_in};

use crate::table::TallyRow;
use crate::{counts, table};
use bar_box::BarBox;
use recognisers::box_verdicts::checked;
use recognisers::counts::{RECOGNISERS, ROW_BYTES};
use recognisers::{Refusal, Thresholds};

// The first of the refusals 3 to 6 that is true of a feed with a tally to a box that counts n bars; 5 also covers a tally with a row that
// doesn't add up to n.
pub fn tally_verdict(
    t: Thresholds,
    n: u32,
    tally: [TallyRow; RECOGNISERS],
    prices: usize,
    sheet: usize,
) -> Result<(), Refusal>
    ensures { (result ≡ tally_verdict t n tally prices sheet) × (Shaped tally) }
{
    checked(t, true, n, prices, true, table::adds_up(&tally, n), sheet)
}

// Takes the lent bars in, writes a row for each, and answers the tally with the rows counted; or refuses and leaves box and sheet as they were.
pub fn feed(
    b: &mut BarBox,
    tally: [TallyRow; RECOGNISERS],
    prices: &[f64],
    sheet: &mut [u8],
) -> Result<[TallyRow; RECOGNISERS], Refusal>
    ensures answer { result ≡ table_answer (tallied_of b.old tally (lent prices.now sheet.old)) }
    ensures after { b.new ≡ (tallied_of b.old tally (lent prices.now sheet.old)).after }
    ensures sheet { sheet.new ≡ tallied_sheet b.old tally (lent prices.now sheet.old) }
    ensures shaped { Shaped tally }
    ensures number { verdict_number (verdict_in result) ≡ verdict_number (verdict_with b.old tally (lent prices.now sheet.old)) }
{
    let n = b.count;
    tally_verdict(b.thresholds, n, tally, prices.len(), sheet.len())?;
    bar_box::feed(b, prices, sheet)?;
    let bytes = ROW_BYTES * measures::count(prices);
    Ok(counts::count(tally, n, &sheet[..bytes]))
}

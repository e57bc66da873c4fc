// A look.
ghost use Rattle.std.specs.Prelude.{◌≡◌, take, [], ◌∷◌};
ghost use Rattle.recognisers.specs.Table.{pair_at, codes_of};
ghost use Rattle.recognisers.specs.Refusal.{verdict_number, leaves, look_verdict, refusal_in, codes_in, answer_in, ordinal_in};
ghost use Rattle.measures.specs.Window.{up_to};
ghost use Rattle.box_record.specs.Box.{bars_in, kept, look_answer_of};

use crate::boxes::{BarBox, KeptBar};
use measures::{least, up_to};
use recognisers::box_verdicts::look_verdict;
use recognisers::{Judged, Pair, Refusal, Thresholds, counts, table};

// The pair of a recogniser at an offset of the kept bars, with the box's count for len.
fn pair_back(t: Thresholds, count: u32, bars: [KeptBar; counts::PLACES], k: u32, di: u32) -> Pair
    ensures { result ≡ pair_at k t count (bars_in (take count bars)) di }
{
    let kept = least(count as usize, counts::PLACES);
    let mut run = [0.0; 4 * counts::PLACES];
    for i in 0..kept {
        measures::put_bar(bars[i].bar, &mut run, i);
    }
    let end = 4 * kept;
    table::pair_at(k, t, count as usize, &run[..end], di as usize)
}

// The ordinal of the bar that an offset judges of n bars fed: the number of bars up to it.
fn judged_ordinal(n: u32, di: u32) -> u32
    ensures { result ≡ up_to n di }
{
    up_to(n as usize, di as usize) as u32
}

// The pair of a recogniser at an offset from the newest bar, and the judged bar's ordinal; the box stays.
pub fn look(b: BarBox, k: u32, di: u32) -> Result<Judged, Refusal>
    ensures answer { result ≡ look_answer_of b k di }
    ensures number { refusal_in (answer_in result) ≡ verdict_number (look_verdict k di b.thresholds b.count) }
    ensures values { (codes_in (answer_in result) ≡ leaves (look_verdict k di b.thresholds b.count) [] (codes_of (pair_at k b.thresholds b.count (kept b) di ∷ [])))
        × (ordinal_in result ≡ leaves (look_verdict k di b.thresholds b.count) 0 (up_to b.count di)) }
{
    look_verdict(k, di, b.thresholds, b.count)?;
    let bars = b.bars;
    Ok(Judged {
        pair: pair_back(b.thresholds, b.count, bars, k, di),
        ordinal: judged_ordinal(b.count, di),
    })
}

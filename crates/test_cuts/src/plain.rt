// What a history leaves, told without a box: its rows and looks by the plain call over all its bars, its places by their prices, and all
// ordinals by how many bars it has.
use crate::cuts::{Left, SHEET, bars_in};
use crate::digest::{mix, mix_place, of_bytes, of_looks};
use bar_box::KeptBar;
use measures::Bar;
use recognisers::counts::{FARTHEST_LOOK, PLACES, RECOGNISERS};
use recognisers::label::code;
use recognisers::{Judged, Pair, Refusal, Thresholds};

// What an empty place holds.
const NONE: KeptBar = KeptBar {
    bar: Bar {
        open: 0.0,
        close: 0.0,
        high: 0.0,
        low: 0.0,
    },
    ordinal: 0,
};

fn call(prices: &[f64], k: u32, di: u32) -> Result<Pair, Refusal> {
    recognisers::recognise(k, di, Thresholds::standard(), prices)
}

// The sheet: the pairs of each bar as the newest of those before it and itself.
pub fn rows(prices: &[f64]) -> [u8; SHEET] {
    let mut sheet = [255u8; SHEET];
    let pairs = RECOGNISERS * bars_in(prices);
    for i in 0..pairs {
        let seen = measures::first_bars(prices, i / RECOGNISERS + 1);
        if let Ok(pair) = call(seen, (i % RECOGNISERS) as u32, 1) {
            sheet[2 * i] = code(pair.v1);
            sheet[2 * i + 1] = code(pair.v2);
        }
    }
    sheet
}

// What a place of a box holds that was fed these bars, with ordinals from 1 for the first bar of all.
fn kept_in(prices: &[f64], place: usize) -> Option<KeptBar> {
    let n = bars_in(prices);
    let kept = n.min(PLACES);
    if kept <= place {
        return None;
    }
    let i = n - kept + place;
    Some(KeptBar {
        bar: measures::bar_or_none(prices, i),
        ordinal: (i + 1) as u32,
    })
}

fn of_places(prices: &[f64]) -> u64 {
    (0..PLACES).fold(1, |d, i| mix_place(d, kept_in(prices, i).unwrap_or(NONE)))
}

// A look at 44 is refused, where the plain call is not. The newest of n bars has the ordinal n; past the first bar it is 0, as in any look.
fn look(prices: &[f64], k: u32, di: u32) -> Result<Judged, Refusal> {
    if FARTHEST_LOOK < di {
        return Err(Refusal::FarLook);
    }
    let pair = call(prices, k, di)?;
    let ordinal = (bars_in(prices) + 1).saturating_sub(di as usize) as u32;
    Ok(Judged { pair, ordinal })
}

// The digests that every cut should leave.
pub fn left(prices: &[f64]) -> Left {
    let sheet = rows(prices);
    Left {
        sheet: of_bytes(&sheet),
        places: mix(of_places(prices), bars_in(prices) as u64),
        looks: of_looks(|k, di| look(prices, k, di)),
    }
}

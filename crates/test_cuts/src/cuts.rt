// One history fed to a box in feeds of different sizes.
ghost use Rattle.std.specs.Prelude.{◌+◌, ◌≤◌};

use crate::digest::{mix, of_box, of_bytes, of_looks};
use bar_box::BarBox;
use recognisers::counts::ROW_BYTES;
use recognisers::refusals::verdict_number;
use recognisers::{Refusal, Thresholds};
use std::ops::Range;
use test_output::{digest, number};

// The most bars of a history here, and a sheet with room for a row more than that has. A byte that is not written shows: it is 255,
// which no row has.
pub const BARS: usize = 300;

pub const SHEET: usize = ROW_BYTES * (BARS + 1);

// How many bars the first feed has and how many each later one, the last as many as are left; whether an empty feed goes before
// each, and whether refused ones come after it.
#[derive(Clone, Copy)]
pub struct Cut {
    pub first: usize,
    pub later: usize,
    pub empty: bool,
    pub refused: bool,
}

// The box after the feeds so far, how many of them were accepted and how many refused, and a digest of their verdicts in turn.
#[derive(Clone, Copy)]
struct Fed {
    pub after: BarBox,
    pub accepted: u64,
    pub refused: u64,
    pub verdicts: u64,
}

// Digests of what a cut leaves: the sheet, the box, every look.
#[derive(Clone, Copy, PartialEq, Eq)]
pub struct Left {
    pub sheet: u64,
    pub places: u64,
    pub looks: u64,
}

// How many bars a history has.
pub fn bars_in(prices: &[f64]) -> usize
    ensures { result ≤ 300 }
{
    measures::count(prices).min(BARS)
}

// The lent prices in a range, as far as there are any.
pub fn part(prices: &[f64], range: Range<usize>) -> &[f64] {
    let e = range.end.min(prices.len());
    let a = range.start.min(e);
    &prices[a..e]
}

// A feed that is lent a range of the bytes of a sheet, as far as there are any.
pub fn feed_to(
    b: &mut BarBox,
    prices: &[f64],
    sheet: &mut [u8],
    range: Range<usize>,
) -> Result<(), Refusal> {
    let e = range.end.min(sheet.len());
    let a = range.start.min(e);
    bar_box::feed(b, prices, &mut sheet[a..e])
}

// One feed more.
fn feed(f: &mut Fed, prices: &[f64], sheet: &mut [u8], range: Range<usize>) {
    let verdict = feed_to(&mut f.after, prices, sheet, range);
    f.accepted = f.accepted.wrapping_add(u64::from(verdict.is_ok()));
    f.refused = f.refused.wrapping_add(u64::from(verdict.is_err()));
    f.verdicts = mix(f.verdicts, u64::from(verdict_number(verdict)));
}

// Two feeds of n bars from a bar on that are refused, 4 and 6: a price is missing, then a byte. They are lent rows that are written
// already, which they would spoil.
fn feed_refused(f: &mut Fed, prices: &[f64], sheet: &mut [u8], bar: usize, n: usize)
    requires { bar + n ≤ 300 }
{
    let a = 4 * bar;
    let e = 4 * (bar + n);
    let at = ROW_BYTES * bar;
    let end = ROW_BYTES * (bar + n);
    feed(f, part(prices, a + 1..e), sheet, at..end);
    feed(f, part(prices, a..e), sheet, at + 1..end);
}

// The feeds of n bars from a bar on; their rows go to their place of the sheet.
fn feed_turn(f: &mut Fed, cut: Cut, prices: &[f64], sheet: &mut [u8], bar: usize, n: usize)
    requires { bar + n ≤ 300 }
{
    let a = 4 * bar;
    let e = 4 * (bar + n);
    let at = ROW_BYTES * bar;
    if cut.empty {
        feed(f, &[], sheet, at..SHEET);
    }
    feed(f, part(prices, a..e), sheet, at..SHEET);
    if cut.refused {
        feed_refused(f, prices, sheet, bar, n);
    }
}

// How many bars a feed takes: never none, so that the feeds end.
fn size(cut: Cut, done: usize, left: usize) -> usize
    requires { 1 ≤ left }
    ensures { (1 ≤ result) × (result ≤ left) }
{
    let want = if done == 0 { cut.first } else { cut.later };
    want.min(left).max(1)
}

fn feed_all(cut: Cut, prices: &[f64], sheet: &mut [u8]) -> Fed {
    let made = bar_box::make(Thresholds::standard());
    let after = made.after;
    let bars = bars_in(prices);
    let mut f = Fed {
        after,
        accepted: 0,
        refused: 0,
        verdicts: 1,
    };
    let mut done = 0usize;
    // no `for`: the cut says how many bars each turn takes
    while done < bars {
        let n = size(cut, done, bars - done);
        feed_turn(&mut f, cut, prices, sheet, done, n);
        done += n;
    }
    f
}

pub fn write(left: Left) {
    digest(b": sheet ", left.sheet);
    digest(b" box ", left.places);
    digest(b" looks ", left.looks);
}

// Feeds a history whole and writes what that leaves.
pub fn run(cut: Cut, prices: &[f64]) -> Left {
    let mut sheet = [255u8; SHEET];
    let f = feed_all(cut, prices, &mut sheet);
    let b = f.after;
    let left = Left {
        sheet: of_bytes(&sheet),
        places: of_box(b),
        looks: of_looks(|k, di| bar_box::look(b, k, di)),
    };
    write(left);
    number(b" accepted ", f.accepted);
    number(b" refused ", f.refused);
    digest(b" verdicts ", f.verdicts);
    left
}

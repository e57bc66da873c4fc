// Tallies that a caller filled: the verdict's number of a feed of one bar with each, a line each.
ghost use Rattle.std.specs.Prelude.{◌<◌};
ghost use Rattle.recognisers.specs.Number.{labels, recognisers};

use bar_box::BarBox;
use measures::first_bars;
use recognisers::counts::{LABELS, RECOGNISERS, ROW_BYTES};
use recognisers::refusals::verdict_number;
use recognisers::{Refusal, Thresholds};
use tallies::TallyRow;
use test_output::{number, text};

// A sheet for six bars, and one that is too short for a bar.
const SHEET: usize = 6 * ROW_BYTES;

const SHORT: usize = ROW_BYTES - 1;

const HALF: u32 = 0x8000_0000;

// A box and a tally, which need not be of the same bars.
#[derive(Clone, Copy)]
struct Counted {
    held: BarBox,
    tally: [TallyRow; RECOGNISERS],
}

impl Counted {
    // The table with a number added to a cell; what passes 32 bits is cut off.
    fn with_more(mut self, k: usize, c: usize, more: u32) -> Self
        requires { (k < recognisers) × (c < labels) }
    {
        let n = self.tally[k].counts[c];
        self.tally[k].counts[c] = n.wrapping_add(more);
        self
    }
}

// The box and the tally after n bars, of which there are six.
fn after(n: usize) -> Counted {
    let prices = [
        5.0, 6.0, 7.0, 4.0, 5.0, 6.0, 8.0, 3.0, 10.0, 11.0, 11.0, 7.0, 14.0, 16.0, 20.0, 11.0, 5.0,
        6.0, 7.0, 4.0, 6.0, 8.0, 9.0, 5.0,
    ];
    let mut sheet = [0; SHEET];
    let mut held = bar_box::fresh(Thresholds::standard());
    let none = tallies::fresh();
    let fed = tallies::feed(&mut held, none, first_bars(&prices, n), &mut sheet);
    Counted {
        held,
        tally: fed.unwrap_or(none),
    }
}

fn write_answer(answer: Result<[TallyRow; RECOGNISERS], Refusal>) {
    number(b": ", u64::from(verdict_number(answer.map(|_| ()))));
    text(b"\n");
}

// A feed of one bar on a sheet that is long enough.
fn write_fed(mut counted: Counted) {
    let mut sheet = [0; ROW_BYTES];
    let prices = [5.0, 6.0, 7.0, 4.0];
    write_answer(tallies::feed(&mut counted.held, counted.tally, &prices, &mut sheet));
}

// In a row: one bar too many, one too few, 2 to the power of 32 too many, and one counted for another label, which the sums don't tell.
fn write_row(counted: Counted, k: usize)
    requires { k < recognisers }
{
    number(b"tally, one too many in row ", k as u64);
    write_fed(counted.with_more(k, 0, 1));
    number(b"tally, one too few in row ", k as u64);
    write_fed(counted.with_more(k, 0, u32::MAX));
    number(b"tally, 4294967296 too many in row ", k as u64);
    write_fed(counted.with_more(k, 1, HALF).with_more(k, LABELS - 1, HALF));
    number(b"tally, another label in row ", k as u64);
    write_fed(
        counted
            .with_more(k, 0, u32::MAX)
            .with_more(k, LABELS - 1, 1),
    );
}

// Prices on the short sheet.
fn write_short(name: &[u8], mut counted: Counted, prices: &[f64]) {
    let mut sheet = [0; SHORT];
    text(name);
    write_answer(tallies::feed(&mut counted.held, counted.tally, prices, &mut sheet));
}

// A wrong tally beside what is tried before and after it, and a right one.
fn write_order(right: Counted) {
    let half = [5.0, 6.0, 7.0];
    let bar = [5.0, 6.0, 7.0, 4.0];
    let wrong = right.with_more(17, 37, 1);
    let mut bad = wrong;
    bad.held.thresholds.th14 = 10000001;
    write_short(b"tally, wrong, and bad thresholds", bad, &half);
    write_short(b"tally, wrong, and half a bar", wrong, &half);
    write_short(b"tally, wrong, and a short sheet", wrong, &bar);
    write_short(b"tally, right, and a short sheet", right, &bar);
    write_short(b"tally, wrong, and no bar", wrong, &[]);
    text(b"tally, right");
    write_fed(right);
}

// The tally after so many bars with the box after so many others.
fn write_other(name: &[u8], bars: usize, counted: usize) {
    let tally = after(counted).tally;
    text(name);
    write_fed(Counted {
        tally,
        ..after(bars)
    });
}

pub fn write() {
    let five = after(5);
    for k in 0..RECOGNISERS {
        write_row(five, k);
    }
    write_other(b"tally, of no bar with five", 5, 0);
    write_other(b"tally, of five bars with none", 0, 5);
    write_other(b"tally, of five bars with six", 6, 5);
    write_other(b"tally, of six bars with five", 5, 6);
    write_order(five);
}

// Cuts histories into feeds in many ways and writes digests of what each cut leaves: the sheet, the box and all looks are those of
// the plain call, however the history is cut. Then the refusals and the limits of the box.
//
// Standard input has a step on each line: a word, of which the first letter says what is done, numbers, and after a bar the text that
// begins the line that the step writes. A float F has two decimals, or is as x0 to x11 one of script::UNUSUAL.
//   F F F F               one bar more of the history: open, close, high, low
//   history               a history without bars
//   plain                 what plain calls over the history give, which each cut should leave
//   cut N N N N           the history in feeds: the bars of the first, the bars of each later one, 1 if an empty feed goes before each,
//                         1 if refused ones come after it
//   recognisers           for each recogniser how often its v1 is other than 其他
//   v1                    how often each such v1 stands
//   same                  whether each cut since the plain calls left what they give
//   thresholds F N        the verdicts on thirteen makings, each with one threshold changed: to F if it is a float, else to N
//   make F                a box: that of a making with th8 = F, which is 2.00 in the standard set
//   occupied F            a box that counts no bars and whose places hold F and the ordinal 7
//   grow N                the box after a feed of the history's first N bars
//   edit F N              the box with th8 = F and a count of N, as a caller can fill it in
//   feed N N N            a feed of the history's prices from one on, before another, that is lent so many bytes of a sheet
//   look N N              a look: recogniser, offset
//   all N                 the looks of all recognisers at an offset
//   inside                what the places of the box hold
// Any other line is a comment. The histories were written by generators from the seed 20221118, and are kept as they came.
//
// Every function is proved safe and ending; what is written is seen in the file stdout, which the gate holds this program to.
#![tactic(auto)]

mod cuts;
mod digest;
mod labels;
mod limits;
mod plain;
mod script;

use bar_box::{BarBox, KeptBar};
use cuts::{BARS, Cut, Left};
use measures::Bar;
use recognisers::Thresholds;
use recognisers::counts::PLACES;
use script::{Line, float};
use test_output::{STDIN_FILENO, text};

const PRICES: usize = 4 * BARS;

const WORD: u64 = 0x1_0000_0000;

// A wrong ordinal, which a caller has put into every place.
const FILLED: u32 = 7;

#[derive(Drop)]
struct History {
    prices: [f64; PRICES],
    bars: usize,
}

// What every cut should leave, none before a plain call, and whether each has done so.
#[derive(Drop)]
struct Seen {
    expected: Option<Left>,
    same: bool,
}

#[derive(Drop)]
struct State {
    history: History,
    held: BarBox,
    seen: Seen,
}

fn start() -> State {
    let made = bar_box::make(Thresholds::standard());
    State {
        history: History {
            prices: [0.0; PRICES],
            bars: 0,
        },
        held: made.after,
        seen: Seen {
            expected: None,
            same: true,
        },
    }
}

impl History {
    fn lent(&self) -> &[f64] {
        measures::first_bars(&self.prices, self.bars)
    }

    // A bar for which there is no room takes the place of the last.
    fn push(&mut self, line: Line) {
        let i = self.bars.min(BARS - 1);
        self.prices[4 * i] = float(line.a);
        self.prices[4 * i + 1] = float(line.b);
        self.prices[4 * i + 2] = float(line.c);
        self.prices[4 * i + 3] = float(line.d);
        self.bars = i + 1;
    }

    fn step(&mut self, line: Line) {
        match line.letter {
            Some(b'0'..=b'9' | b'x') => self.push(line),
            Some(b'h') => self.bars = 0,
            _ => {}
        }
    }
}

// A box without bars, as a caller can fill it.
fn occupied(x: f64) -> BarBox {
    let bar = Bar {
        open: x,
        close: x,
        high: x,
        low: x,
    };
    let place = KeptBar {
        bar,
        ordinal: FILLED,
    };
    BarBox {
        thresholds: Thresholds::standard(),
        count: 0,
        bars: [place; PLACES],
    }
}

// What a step does to the box.
fn step_box(held: &mut BarBox, line: Line, prices: &[f64]) {
    match line.letter {
        Some(b'm') => {
            let made = bar_box::make(limits::changed(8, float(line.d), 0));
            *held = made.after;
        }
        Some(b'o') => *held = occupied(float(line.d)),
        Some(b'e') => {
            held.thresholds = limits::changed(8, float(line.c), 0);
            held.count = (line.d % WORD) as u32;
        }
        Some(b'g') => limits::grow(held, measures::first_bars(prices, line.d as usize)),
        Some(b'f') => limits::feed(
            held,
            cuts::part(prices, line.b as usize..line.c as usize),
            line.d as usize,
        ),
        _ => {}
    }
}

fn write_same(same: bool) {
    if same {
        text(b" same");
    } else {
        text(b" DIFFERS");
    }
}

fn cut_of(line: Line) -> Cut {
    Cut {
        first: line.a as usize,
        later: line.b as usize,
        empty: line.c != 0,
        refused: line.d != 0,
    }
}

impl Seen {
    fn step(&mut self, line: Line, prices: &[f64]) {
        match line.letter {
            Some(b'p') => {
                let left = plain::left(prices);
                cuts::write(left);
                self.expected = Some(left);
                self.same = true;
            }
            Some(b'c') => {
                let left = cuts::run(cut_of(line), prices);
                self.same &= self.expected == Some(left);
            }
            Some(b's') => write_same(self.same),
            _ => {}
        }
    }
}

// Writes what a step says that changes nothing.
fn write(line: Line, held: BarBox, prices: &[f64]) {
    let n = (line.d % WORD) as u32;
    match line.letter {
        Some(b'r') => labels::write_recognisers(prices),
        Some(b'v') => labels::write_codes(prices),
        Some(b't') => limits::write_makings(float(line.c), n),
        Some(b'l') => limits::write_look(held, (line.c % WORD) as u32, n),
        Some(b'a') => limits::write_looks(held, n),
        Some(b'i') => limits::write_places(held),
        _ => {}
    }
}

// Takes the step of a line.
fn step(st: &mut State, line: Line) {
    let prices = st.history.lent();
    write(line, st.held, prices);
    step_box(&mut st.held, line, prices);
    st.seen.step(line, prices);
    st.history.step(line);
}

// Of a last line that no line feed ends the text alone is written.
fn run(script: &[u8]) {
    let mut st = start();
    for piece in script.split_inclusive(|byte| *byte == b'\n') {
        let ended = piece.strip_suffix(b"\n");
        let line = script::read(ended.unwrap_or(piece));
        if let Some(said) = line.text {
            text(said);
        }
        if ended.is_some() {
            step(&mut st, line);
            if line.text.is_some() {
                text(b"\n");
            }
        }
    }
}

fn main() {
    let mut script = io::large_buffer();
    let n = io::read_full(STDIN_FILENO, &mut script);
    run(&script[..n]);
}

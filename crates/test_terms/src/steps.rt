// The steps: calls, and layers that a caller filled.
use crate::print;
use crate::script::Line;
use measures::Bar;
use recognisers::counts::ROW_BYTES;
use recognisers::refusals::verdict_number;
use recognisers::{Refusal, Thresholds};
use terms::Layer;
use test_output::{number, text};
use trading_hours::{DayWindow, Hours};

// A threshold outside its limits, for th8.
const OUTSIDE: f64 = 10001.0;

// Hours without a window.
pub fn no_hours() -> Hours {
    Hours {
        windows: [DayWindow::default(); 4],
        count: 0,
    }
}

// How many bytes are no sevens.
fn written(bytes: &[u8]) -> usize {
    bytes.iter().filter(|byte| **byte != 7).count()
}

// What a call answered, and the layer after it.
fn report(letter: &[u8], answer: Result<usize, Refusal>, sheet: &[u8], l: &Layer) {
    text(letter);
    number(b" ", u64::from(verdict_number(answer.map(|_| ()))));
    number(b" ", answer.unwrap_or(0) as u64);
    number(b" ", written(sheet) as u64);
    print::layer(l);
}

fn window(from: u32, to: u32) -> DayWindow {
    DayWindow { from, to }
}

fn make(l: &mut Layer, line: &Line) {
    let n = line.numbers();
    let mut t = Thresholds::standard();
    if n[2] == 1 {
        t.th8 = OUTSIDE;
    }
    let h = Hours {
        windows: [
            window(n[4], n[5]),
            window(n[6], n[7]),
            window(n[8], n[9]),
            window(n[10], n[11]),
        ],
        count: n[3],
    };
    let made = terms::make(t, h, n[1]);
    *l = made.after;
    report(b"m", made.verdict.map(|()| 0), b"", l);
}

// A run of as many of these prices as the line says, with its stamps, and with as many bytes of the sheet as it says.
fn run(l: &mut Layer, line: &Line) {
    let n = line.numbers();
    let nan = f64::NAN;
    let prices = [
        5.0, 6.0, 7.0, 4.0, 6.0, 8.0, 9.0, 5.0, 8.0, 7.0, nan, nan, 7.0, 7.0, 7.0, 7.0, 0.0, 0.0,
        0.0, -0.0, 0.0, 0.0, -0.0, 0.0, 7.0, 9.0, 9.0, 6.0, 9.0, 5.0, 9.0, 4.0,
    ];
    let mut sheet = [7; 8 * ROW_BYTES];
    let bytes = (n[1] as usize).min(sheet.len());
    let lent = (n[2] as usize).min(prices.len());
    let stamps = n.get(3..line.end()).unwrap_or(&[]);
    let answer = terms::run(l, &prices[..lent], stamps, &mut sheet[..bytes]);
    report(b"r", answer, &sheet, l);
}

fn close(l: &mut Layer, line: &Line) {
    let mut sheet = [7; ROW_BYTES];
    let bytes = (line.numbers()[1] as usize).min(sheet.len());
    let answer = terms::close(l, &mut sheet[..bytes]);
    report(b"c", answer, &sheet, l);
}

// Sets one thing of the layer. A match on numbers: they are those of the script.
fn edit(l: &mut Layer, line: &Line) {
    let n = line.numbers();
    let value = n[2];
    match n[1] {
        0 => l.minutes = value,
        1 => l.hours.count = value,
        2 => l.carried.last = Some(value),
        3 => l.carried.last = None,
        4 => {
            l.carried.pending = Some(Bar {
                open: 1.0,
                close: 2.0,
                high: 3.0,
                low: 0.5,
            });
        }
        5 => l.carried.pending = None,
        6 => l.inner.count = value,
        7 => l.inner.thresholds.th8 = OUTSIDE,
        8 => l.hours.windows[3] = DayWindow { from: 0, to: value },
        _ => {}
    }
    text(b"e");
    print::layer(l);
}

// Takes a step.
pub fn take(l: &mut Layer, line: &Line) {
    match line.letter {
        b'm' => make(l, line),
        b'r' => run(l, line),
        b'c' => close(l, line),
        b'e' => edit(l, line),
        _ => {}
    }
}

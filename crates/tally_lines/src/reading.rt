// Bytes read as lines, and the bars of these as a run of prices.
ghost use Rattle.std.specs.Prelude.{◌≡◌, [], ◌+◌, ◌*◌, ◌≤◌, length, take};
ghost use Rattle.measures.specs.Bar.{overlay, prices_of};
ghost use Rattle.text.specs.LineText.{line_of};
ghost use Rattle.input_lines.specs.Lines.{content, partial_of};
ghost use Rattle.tally_lines.specs.Session.{read_from, line_bars, line_stop};
ghost use Rattle.tally_lines.specs.SessionSteps.{gathered_of};

use label_lines::session::stop_by;
use measures::put_bar;
use output_lines::Stop;
use text::lines::LINE_FEED;
use text::{Partial, lines, read_partial};

// The line that has begun behind the bytes used, the bars read, and what a line was refused by.
#[derive(Clone, Copy)]
pub(crate) struct Gathered {
    pub line: Partial,
    pub used: usize,
    pub bars: usize,
    pub stop: Option<Stop>,
}

// The end of a line behind n bars, with so many bytes used: its bar goes behind theirs.
fn end_line(line: Partial, used: usize, prices: &mut [f64], n: usize) -> Gathered
    requires { 4 * (n + 1) ≤ length prices.old }
    ensures { (result.line ≡ partial_of []) × (result.used ≡ used) × (result.bars ≡ n + length (line_bars (line_of (content line)))) × (result.stop ≡ line_stop (line_of (content line))) × (prices.new ≡ overlay prices.old (4 * n) (prices_of (line_bars (line_of (content line))))) }
{
    let ended = Gathered {
        line: lines::begin(),
        used,
        bars: n,
        stop: None,
    };
    match read_partial(line) {
        Ok(bar) => {
            put_bar(bar, prices, n);
            Gathered {
                bars: n + 1,
                ..ended
            }
        }
        Err(why) => Gathered {
            stop: Some(stop_by(why)),
            ..ended
        },
    }
}

// Bytes up to the end of a line, or all of them if none ends there, behind n bars. What the labels program's advance has too is the two
// calls at its front; what either leaves is its own.
fn next_line(line: Partial, chunk: &[u8], prices: &mut [f64], n: usize) -> Gathered
    requires { (1 ≤ length chunk.now) × (4 * (n + 1) ≤ length prices.old) }
    ensures le_used { (1 ≤ result.used) × (result.used ≤ length chunk.now) × (result.bars ≤ n + 1) }
    ensures value { (result ≡ gathered_of result.used n (read_from [] (content line) (take result.used chunk.now))) × (prices.new ≡ overlay prices.old (4 * n) (prices_of (read_from [] (content line) (take result.used chunk.now)).bars)) }
{
    let k = lines::piece_end(LINE_FEED, chunk);
    let longer = lines::extend(line, &chunk[..k]);
    if k < chunk.len() {
        end_line(longer, k + 1, prices, n)
    } else {
        Gathered {
            line: longer,
            used: k,
            bars: n,
            stop: None,
        }
    }
}

// Lines into the front of a run of prices, until one is refused, so many bars are there or the bytes end.
pub(crate) fn gather(line: Partial, chunk: &[u8], most: usize, prices: &mut [f64]) -> Gathered
    requires { (1 ≤ most) × (4 * most ≤ length prices.old) × (1 ≤ length chunk.now) }
    ensures le_used { (1 ≤ result.used) × (result.used ≤ length chunk.now) × (result.bars ≤ most) }
    ensures value { (result ≡ gathered_of result.used 0 (read_from [] (content line) (take result.used chunk.now))) × (prices.new ≡ overlay prices.old 0 (prices_of (read_from [] (content line) (take result.used chunk.now)).bars)) }
{
    // the line anew, so that it is one value from the start
    let mut got = Gathered {
        line: lines::extend(line, &chunk[..0]),
        used: 0,
        bars: 0,
        stop: None,
    };
    // not over the bytes one by one: each turn takes a whole line
    while (got.used < chunk.len()) & (got.bars < most) & got.stop.is_none() {
        let next = next_line(got.line, &chunk[got.used..], prices, got.bars);
        got = Gathered {
            used: got.used + next.used,
            ..next
        };
    }
    got
}

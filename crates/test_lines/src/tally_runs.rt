// Refused inputs of the tally program: lines of a bar, one that is refused, and lines again. A line is written for each: how many come
// before the refused one, and what is printed. A batch has 1,024 bars.
use crate::run::{first, write as write_printed};
use tally_lines::session;
use test_output::number;

// The bytes of a line with its line feed, and how many lines an input has.
const LINE: usize = 8;

const LINES: usize = 8192;

// What an input prints that comes in two parts.
fn write_run(n: usize, input: &[u8]) {
    let (front, back) = input.split_at(input.len() / 2);
    let begun = session::absorb(session::begin(), front);
    let last = session::absorb(begun, back);
    let mut out = io::large_buffer();
    let printed = session::end(last, &mut out);
    number(b"tally of ", n as u64);
    write_printed(first(&out, printed));
}

// Lines of a bar, and this one behind n of them: with lines behind it, and where the input ends before its line feed.
fn write_refused(n: usize, bad: [u8; LINE]) {
    let mut lines = [*b"5,6,7,4\n"; LINES];
    if let Some(line) = lines.get_mut(n) {
        *line = bad;
    }
    let input = lines.as_flattened();
    write_run(n, input);
    write_run(n, first(input, LINE * n.min(LINES) + LINE - 1));
}

// By 8, and by 9 with the place.
fn write_both(n: usize) {
    write_refused(n, *b"5,6,7;4\n");
    write_refused(n, *b"5,6,x,4\n");
}

pub fn write() {
    for n in [0, 1, 500, 1022, 1023, 1024, 1025, 2048, 8191] {
        write_both(n);
    }
    // a line that no input has: every line is a bar
    write_refused(LINES, *b"5,6,x,4\n");
}

// Holds document 01's text and the labels program's refusals to a file, which that program's own input cannot: it stops at its first
// refusal. Each line of standard input is a case, a whole input of a session of its own. A line is written for each: the case's number;
// what its text says, 0 and the prices' bits, 8, or 9 and the place of the leftmost field that is no price; and what the session printed.
// The cases are, in turn: good lines and other numbers of fields; a field that is bad alone, and two and more; lengths; signs; spaces;
// other ways to write a number; nan; points; digits; zeros; bytes that are no text; and 8 beside 9, each place and 80 and 81 bytes.
//
// Then the labels' texts, the limits of a session, tallies that a caller filled and refused inputs of the tally program, a line each. Every
// function is proved safe and ending; what is written is seen in the file stdout, which the gate holds this program to.
#![tactic(auto)]

mod labels;
mod limits;
mod run;
mod tally;
mod tally_runs;

use measures::Bar;
use recognisers::refusals::verdict_number;
use run::run_fresh;
use test_output::{STDIN_FILENO, number, price, text};
use text::line_text::line_verdict;
use text::{LineError, read_line};

// What a line says.
fn write_said(line: Result<Bar, LineError>) {
    number(b":", u64::from(verdict_number(line_verdict(line))));
    match line {
        Ok(bar) => {
            price(bar.open);
            price(bar.close);
            price(bar.high);
            price(bar.low);
        }
        Err(LineError::BadShape) => {}
        Err(LineError::BadPrice(place)) => number(b",", u64::from(place)),
    }
}

// The case comes with its line feed, unless the input's end cut that off. A second line is written for a case whose session prints
// something else if the line feed comes behind: an empty line is none at the input's end.
fn write_case(n: u64, case: &[u8]) {
    let line = case.strip_suffix(b"\n").unwrap_or(case);
    let mut out = io::buffer();
    let ended = run_fresh(line, &mut out);
    let mut out = io::buffer();
    let fed = run_fresh(case, &mut out);
    number(b"", n);
    write_said(read_line(line));
    run::write(ended);
    if ended != fed {
        number(b"", n);
        text(b", line feed");
        run::write(fed);
    }
}

fn write_cases(input: &[u8]) {
    for (i, case) in input.split_inclusive(|byte| *byte == b'\n').enumerate() {
        write_case(i as u64 + 1, case);
    }
}

fn main() {
    let mut input = io::large_buffer();
    let n = io::read_full(STDIN_FILENO, &mut input);
    write_cases(&input[..n]);
    labels::write();
    limits::write();
    tally::write();
    tally_runs::write();
}

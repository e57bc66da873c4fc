// Holds the layer of terms to a file: makings, runs and closes, and layers that a caller filled, which no list of calls leaves.
//
// Standard input has a step on each line: a letter, and numbers behind spaces.
//   m M T N F T F T F T F T   a making: the term length, 1 for a threshold outside its limits, the count of windows, and from and to of four
//   r B P S S ..              a run that is lent so many bytes of a sheet and so many prices, with these stamps
//   c B                       a close that is lent so many bytes
//   e W V                     the layer as a caller can fill it in, by what is set: 0 the term length, 1 the count of windows, 2 the last
//                             stamp, 3 no last stamp, 4 an open bar, 5 none, 6 N, 7 a threshold outside its limits, 8 the to of the fourth
//                             window
// Any other line is a comment. For each step a line is written: its letter; of a call the refusal or 0, the rows filled and how many of
// the sheet's bytes, which are sevens before, are none after it; and the layer: N, the last stamp or -, the open bar's prices or -, the term length, and the
// windows, with those of the unused places behind a bar.
//
// Every function is proved safe and ending; what is written is seen in the file stdout, which the gate holds this program to.
#![tactic(auto)]

mod print;
mod script;
mod steps;

use recognisers::Thresholds;
use script::EMPTY;
use terms::Layer;
use test_output::STDIN_FILENO;

// Takes the steps, a line each.
fn take_steps(input: &[u8], layer: &mut Layer) {
    let mut line = EMPTY;
    for byte in input {
        if *byte == b'\n' {
            steps::take(layer, &line);
            line = EMPTY;
        } else {
            line.push(*byte);
        }
    }
}

fn main() {
    let mut input = io::large_buffer();
    let n = io::read_full(STDIN_FILENO, &mut input);
    let made = terms::make(Thresholds::standard(), steps::no_hours(), 5);
    let mut layer = made.after;
    take_steps(&input[..n], &mut layer);
}

// Replays recorded calls of jcc_label. Standard input has a line for each step:
//   n        a new history, of no bars
//   b HEX    one bar more, 32 bytes; there is room for 128 bars
//   t HEX    the thresholds, 60 bytes in the order of jcc_label's parameters; before the first such line they are all zero
//   c HEX    a call: the recogniser and the offset, 4 bytes each
// Numbers are little-endian. The result of each call goes to standard output, as a decimal number on a line of its own. At a
// line of any other form the program writes 'bad line N', counted from 1, and stops.
//
// Every function is proved safe and ending. What a line does to the history and to the thresholds is proved too
// (specs/Session.antt); that the answers written are those of jcc_label can be read off `end_line`.
#![tactic(auto)]

mod buffer;
mod command;
mod hex;
mod number;
mod output;
mod session;
mod threshold_bytes;

use output::Output;
use session::{Session, Stop};
use std::io::{self, Read, Write};

// Reads up to the end of the input or a bad line. Where a read fails, the input has ended.
fn replay<W: Write>(input: &mut impl Read, output: &mut Output<W>) -> Result<(), Stop> {
    let mut session = Session::new();
    let mut bytes = [0; 4096];
    // A proved loop has to end, and nothing says that the input does: the loop takes as many turns as no run uses up.
    for _ in 0..u64::MAX {
        let n = input.read(&mut bytes).unwrap_or(0);
        if n == 0 {
            break;
        }
        session.feed(&bytes[..n], output)?;
    }
    session.finish()
}

// After a write that failed nothing more is written.
fn run<W: Write>(input: &mut impl Read, output: &mut Output<W>) -> io::Result<()> {
    match replay(input, output) {
        Ok(()) => {}
        Err(Stop::BadLine(n)) => {
            output.write(b"bad line ")?;
            output.write_number(n)?;
        }
        Err(Stop::Output(e)) => return Err(e),
    }
    output.flush()
}

fn main(rt: HostRuntime) {
    let mut output = Output::new(io::writer(&rt));
    // Nobody is there to be told that a write failed.
    let _ = run(&mut rt.reader(), &mut output);
}

// The tally program: reads the lines that the labels program reads and prints how often each label came up. What it prints is fixed by
// tally_lines; here is what moves bytes in and out, with finish, read_some and main of its own, as the labels program says.
//
// The gate's input, stdin, takes more than one read and more than one batch: 41 lines of whole numbers, and then 4,000 bars by this rule, in
// hundredths, for i from 0: the close is c(i) = 10000 + (7919 × i × i + 104729 × i) mod 401; the open c(i - 1) + i mod 7 - 3, where c(-1) is
// 10000; the high the higher of the two + i × i mod 61; the low the lower of them - (37 × i) mod 53. compare/'s model made stdout, with the
// port's labels and with the repository's, and the rows of the labels program add up to it.
#![tactic(auto)]

use output_lines::output::goes_on;
use std::io;
use std::io::{Read, Write};
use tally_lines::{Session, session};

// The tally, or the refusal.
fn finish(st: Session, output: &mut impl Write) {
    let mut out = [0u8; 65536];
    let n = session::end(st, &mut out);
    let _ = output.write_all(&out[..n]);
}

// What one read brings. Nothing is printed before the input's end or a refused line; a read that fails ends the program without a word.
fn read_some(st: Session, input: &mut impl Read, output: &mut impl Write) -> Option<Session> {
    let mut buf = [0u8; 65536];
    let n = input.read(&mut buf).ok()?;
    let next = session::absorb(st, &buf[..n]);
    if goes_on(next.stop) & (0 < n) {
        Some(next)
    } else {
        finish(next, output);
        None
    }
}

// As many turns as no run uses up: a proved loop has to end, and nothing says that the input does.
fn main(rt: HostRuntime) {
    let mut input = rt.reader();
    let mut output = io::writer(&rt);
    let mut st = session::begin();
    for _ in 0..u64::MAX {
        let Some(next) = read_some(st, &mut input, &mut output) else {
            return;
        };
        st = next;
    }
}

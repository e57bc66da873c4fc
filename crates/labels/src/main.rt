// The labels program: reads lines of prices from standard input and prints the labels of each bar. What it prints is fixed by
// label_lines; here is what moves bytes in and out.
//
// finish, read_some and main stand in the tally program too, over its own session: two mains have to be there, and one loop for both would
// have to take absorb and end as closures, since that program prints nothing before the end.
#![tactic(auto)]

use label_lines::{Session, session};
use std::io;
use std::io::{Read, Write};

// Takes the bytes in and writes what they print, before more input is waited for. The session goes on if no line was refused and all that was
// printed could be written.
fn pump(st: Session, chunk: &[u8], output: &mut impl Write) -> Option<Session> {
    let mut out = [0u8; 65536];
    let mut now = st;
    let mut at = 0usize;
    // no `for`: each turn takes as many bytes as the buffer has room for
    while (at < chunk.len()) & !now.stopped {
        let taken = session::absorb(now, &chunk[at..], &mut out);
        output.write_all(&out[..taken.written]).ok()?;
        at += taken.used;
        now = taken.session;
    }
    if now.stopped { None } else { Some(now) }
}

// The input's end.
fn finish(st: Session, output: &mut impl Write) {
    let mut out = [0u8; 65536];
    let n = session::end(st, &mut out);
    let _ = output.write_all(&out[..n]);
}

// What one read brings: nothing at the input's end, where the line that has begun ends. A read that fails ends the program, and the line
// that has begun is not judged.
fn read_some(st: Session, input: &mut impl Read, output: &mut impl Write) -> Option<Session> {
    let mut buf = [0u8; 65536];
    let n = input.read(&mut buf).ok()?;
    if n == 0 {
        finish(st, output);
        return None;
    }
    pump(st, &buf[..n], output)
}

// As many turns as no run uses up: a proved loop has to end, and nothing says that the input does.
fn main(rt: HostRuntime) {
    let mut input = rt.reader();
    let mut output = io::writer(&rt);
    let mut st = session::begin();
    for _ in 0..u64::MAX {
        let Some(next) = read_some(st, &mut input, &mut output) else {
            return;
        };
        st = next;
    }
}
